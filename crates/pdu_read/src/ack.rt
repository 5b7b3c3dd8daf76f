// 6 ACK: acked code 4, subtype 4 (0 for EOF, 1 for Finished), condition 4, spare 2, status 2.
ghost use Rattle.std.specs.Prelude.{◌≡◌};
ghost use Rattle.rules_pdu.specs.Reading.{ack_in};

use crate::condition::is_reserved;
use crate::directive::{OF_EOF, OF_FINISHED};
use types::{Meaning, ReadError};

// An ACK of Finished is read whole before it is refused.
#[tactic(auto, using(crate::proofs::Tests::tests), unfolding(rules_pdu::specs::Reading::ack_in, basis::specs::Bytes::byte))]
pub fn ack_in(b: &[u8]) -> Result<Meaning, ReadError>
    ensures { result ≡ ack_in b.now }
{
    if b.len() != 3 || is_reserved(b[2] >> 4) {
        return Err(ReadError::Malformed);
    }
    match b[1] {
        OF_EOF => Ok(Meaning::AckOfEof),
        OF_FINISHED => Err(ReadError::CantProcess),
        _ => Err(ReadError::Malformed),
    }
}
