// What a put makes of the entry found: the head, the refusals 4 to 8 over it, and the state's groups.
// After cfdp-rs 0.3.0, src/source.rs (Apache-2.0); changed, see NOTICE.
ghost use Rattle.std.specs.Prelude.{◌≡◌, true};
ghost use Rattle.rules_pdu.specs.Numbers.{good_width};
ghost use Rattle.rules.specs.Put.{chosen, head_of, too_long, fixed_of, started};
ghost use Rattle.source_put.specs.Entry.{entry_answer};

use crate::config::{good_config, good_lengths};
use crate::numbers::{is_large, number_after, overhead, segment_length};
use source_state::{empty_queue, no_file, no_marks};
use types::{
    EntityId, Fixed, Head, LocalEntityConfig, Names, PutRequest, Refusal, RemoteEntityConfig,
    State, TransactionSeqNum, TransactionStep,
};
use utf8::is_utf8;

// What a put asks: our own configuration, the request, both names, and the file's size.
#[derive(Clone, Copy)]
pub struct Asked<'a> {
    pub local: LocalEntityConfig,
    pub request: PutRequest,
    pub source: &'a [u8],
    pub destination: &'a [u8],
    pub size: u64,
}

// The put's own word, or the entry's.
fn chosen(c: Option<bool>, entry: bool) -> bool
    ensures { result ≡ chosen c entry }
{
    c.unwrap_or(entry)
}

impl<'a> Asked<'a> {
    // Both ids take the larger of the two widths.
    #[tactic(auto, unfolding(rules_pdu::specs::Numbers::larger))]
    pub fn head(&self, e: RemoteEntityConfig, n: TransactionSeqNum) -> Head
        ensures { result ≡ head_of self.now.local e self.now.request n self.now.size }
    {
        let a = self.local.id;
        let b = self.request.destination;
        let w = a.0.max(b.0);
        Head {
            unacknowledged: chosen(self.request.unacknowledged, e.unacknowledged),
            crc: e.crc,
            large: is_large(self.size),
            source: EntityId(w, a.1),
            number: n,
            destination: EntityId(w, b.1),
        }
    }

    // Whether the metadata PDU is longer than the packet maximum, by what the latter leaves for the names.
    #[tactic(auto, using(std::proofs::lemmas::Bool::Decides::nat_tests), unfolding(rules::specs::Put::too_long, rules_pdu::specs::Layout::pdu_length))]
    fn is_too_long(&self, e: RemoteEntityConfig, h: Head) -> bool
        ensures { result ≡ too_long h e self.now.source.now self.now.destination.now }
    {
        // the directive code, the checksum type and the two length bytes
        let o = overhead(h) + 4 + self.source.len() as u64;
        e.maxpacket < o || e.maxpacket - o < self.destination.len() as u64
    }

    // Refusals 4 to 8.
    #[tactic(auto, unfolding(crate::specs::Entry::entry_answer))]
    pub fn entry_answer(&self, e: RemoteEntityConfig, h: Head) -> Result<(), Refusal>
        ensures { result ≡ entry_answer e self.now.local.actions h self.now.source.now self.now.destination.now }
    {
        if !good_config(e, self.local.actions) {
            return Err(Refusal::BadConfig);
        }
        if !good_lengths(self.source.len(), self.destination.len()) {
            return Err(Refusal::BadNameLength);
        }
        if !is_utf8(self.source) {
            return Err(Refusal::SourceFileNotValidUtf8);
        }
        if !is_utf8(self.destination) {
            return Err(Refusal::DestFileNotValidUtf8);
        }
        if self.is_too_long(e, h) {
            return Err(Refusal::PacketLimit);
        }
        Ok(())
    }

    // What later calls need of the configuration.
    pub fn fixed(&self, e: RemoteEntityConfig, h: Head) -> Fixed
        ensures { result ≡ fixed_of self.now.local e self.now.request h self.now.size }
    {
        Fixed {
            head: h,
            closure: chosen(self.request.closure, e.closure),
            checksum: e.checksum,
            segment: segment_length(e.maxsegment, e.maxpacket, h),
            size: self.size,
            limit: e.limit,
            actions: self.local.actions,
            eofsent: self.local.eofsent,
            finished: self.local.finished,
        }
    }
}

// Progress, queue, condition and cancel mark cleared; of the state before only the number stays, moved on.
#[tactic(auto, unfolding(rules::specs::Put::started))]
pub fn started(n: TransactionSeqNum, f: Fixed, names: Names) -> State
    requires { good_width n.0 ≡ true }
    ensures { result ≡ started n f names }
{
    State {
        number: number_after(n),
        step: TransactionStep::SendingMetadata,
        fixed: f,
        names,
        file: no_file(),
        queue: empty_queue(),
        marks: no_marks(),
    }
}
