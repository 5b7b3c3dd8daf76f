// The PDU due becomes bytes in front of the out buffer.
// After cfdp-rs 0.3.0, src/source.rs (Apache-2.0); changed, see NOTICE.
ghost use Rattle.std.specs.Prelude.{◌≡◌, take};
ghost use Rattle.basis.specs.Laid.{in_front};
ghost use Rattle.rules_pdu.specs.Layout.{encode, written_of};
ghost use Rattle.rules.specs.States.{source_name, destination_name};
ghost use Rattle.rules.specs.Step.{closure_bit, metadata_of, bytes_for};

use crate::sending::piece_of;
use pdu_write::ack::AckFinished;
use pdu_write::body::write;
use pdu_write::file_data::FileData;
use pdu_write::metadata::Metadata;
use types::{Sending, State};

// Closure is written 0 in acknowledged mode.
#[tactic(auto, unfolding(rules::specs::Step::closure_bit))]
fn closure_bit(s: &State) -> bool
    ensures { result ≡ closure_bit s.now }
{
    s.fixed.head.unacknowledged && s.fixed.closure
}

// A name: the first bytes of its array, which has 255 places.
fn name(a: &[u8; 255], n: u8) -> &[u8]
    ensures { result.now ≡ take n a.now }
{
    &a[..n as usize]
}

fn emit_metadata(s: &State, out: &mut [u8]) -> Option<usize>
    ensures value { result ≡ written_of (encode s.now.fixed.head (metadata_of s.now)) out.old }
    ensures out_after { out.new ≡ in_front (encode s.now.fixed.head (metadata_of s.now)) out.old }
{
    let body = Metadata {
        closure: closure_bit(s),
        kind: s.fixed.checksum,
        size: s.fixed.size,
        source: name(&s.names.source, s.names.sourcelen),
        destination: name(&s.names.destination, s.names.destinationlen),
    };
    write(out, s.fixed.head, body)
}

// ACK status 1 is Active.
// Stays: state, file and buffer apart, as `StepMeets` names them.
#[tactic(auto, using(crate::proofs::Parts::none_written, crate::proofs::Parts::none_in_front))]
pub fn emit(s: &State, file: &[u8], p: Sending, out: &mut [u8]) -> Option<usize>
    ensures value { result ≡ written_of (bytes_for s.now file.now p) out.old }
    ensures out_after { out.new ≡ in_front (bytes_for s.now file.now p) out.old }
{
    let head = s.fixed.head;
    match p {
        Sending::Nothing => Some(0),
        Sending::Metadata => emit_metadata(s, out),
        Sending::FileData { offset, length } => {
            let bytes = piece_of(file, offset, length);
            write(out, head, FileData { offset, bytes })
        }
        Sending::Eof(e) => write(out, head, e),
        Sending::AckFinished(condition) => {
            let status = 1;
            write(out, head, AckFinished { condition, status })
        }
    }
}
