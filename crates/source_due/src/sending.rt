// The PDU of each case.
// After cfdp-rs 0.3.0, src/source.rs (Apache-2.0); changed, see NOTICE.
ghost use Rattle.std.specs.Prelude.{◌≡◌, take, drop};
ghost use Rattle.rules.specs.Step.{eof_for, sent_eof, repair_of, next_length, sum_behind, closing, sending_of};

use checksum::sum_on;
use pdu_read::field::part_of;
use types::{Due, Eof, SegmentRequest, Sending, State};

// With the stored checksum: no byte of the file is read.
fn eof_for(s: &State, condition: u8, size: u64) -> Eof
    ensures { result ≡ eof_for s.now condition size }
{
    Eof {
        condition,
        sum: s.file.sum,
        size,
    }
}

// Of what was sent so far.
fn sent_eof(s: &State, condition: u8) -> Eof
    ensures { result ≡ sent_eof s.now condition }
{
    eof_for(s, condition, s.file.progress)
}

#[tactic(auto, unfolding(rules::specs::Step::repair_of))]
fn repair_of(segment: u64, q: SegmentRequest) -> Sending
    ensures { result ≡ repair_of segment q }
{
    if source_queue::is_metadata(q) {
        return Sending::Metadata;
    }
    Sending::FileData {
        offset: q.start,
        length: source_queue::piece(segment, q),
    }
}

// The first pass is one long request: from progress to the end.
pub fn next_length(s: &State) -> u64
    ensures { result ≡ next_length s.now }
{
    let rest = SegmentRequest {
        start: s.file.progress,
        end: s.fixed.size,
    };
    source_queue::piece(s.fixed.segment, rest)
}

// The bytes of the file from the offset on, as many as are there.
#[tactic(auto, unfolding(basis::specs::Bytes::part))]
pub(crate) fn piece_of(file: &[u8], offset: u64, length: u64) -> &[u8]
    ensures { result.now ≡ take length (drop offset file.now) }
{
    part_of(file, offset as usize, length as usize)
}

// The checksum behind the next piece of the first pass: the stored one goes on over the bytes of this piece.
#[tactic(auto, unfolding(rules::specs::Step::sum_behind))]
pub fn sum_behind(s: &State, file: &[u8]) -> u32
    ensures { result ≡ sum_behind s.now file.now }
{
    let piece = piece_of(file, s.file.progress, next_length(s));
    sum_on(s.fixed.checksum, s.file.sum, s.file.progress, piece)
}

#[tactic(auto, unfolding(rules::specs::Step::closing))]
fn closing(s: &State) -> Sending
    ensures { result ≡ closing s.now }
{
    if s.fixed.head.unacknowledged {
        Sending::Nothing
    } else {
        Sending::AckFinished(s.marks.finished.condition)
    }
}

pub fn sending_of(s: &State, d: Due) -> Sending
    ensures { result ≡ sending_of s.now d }
{
    match d {
        Due::CancelEof | Due::EofAgain => Sending::Eof(sent_eof(s, s.marks.condition)),
        Due::Repair => repair_of(s.fixed.segment, source_queue::oldest(s.queue)),
        Due::Metadata => Sending::Metadata,
        Due::Data => Sending::FileData {
            offset: s.file.progress,
            length: next_length(s),
        },
        Due::NoErrorEof => Sending::Eof(eof_for(s, 0, s.fixed.size)),
        Due::FaultCancel(c) => Sending::Eof(sent_eof(s, c)),
        Due::Close => closing(s),
        Due::FaultIgnore(_) | Due::FaultAbandon(_) | Due::Nothing => Sending::Nothing,
    }
}
