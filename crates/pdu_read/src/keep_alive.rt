// 12 Keep Alive: progress F.
ghost use Rattle.std.specs.Prelude.{◌≡◌};
ghost use Rattle.rules_pdu.specs.Reading.{keep_alive_in};

use crate::field::{num_of, size_width};
use types::{Meaning, ReadError};

#[tactic(auto, using(crate::proofs::Tests::tests), unfolding(rules_pdu::specs::Reading::keep_alive_in))]
pub fn keep_alive_in(large: bool, b: &[u8]) -> Result<Meaning, ReadError>
    ensures { result ≡ keep_alive_in large b.now }
{
    let f = size_width(large);
    if b.len() != 1 + f {
        return Err(ReadError::Malformed);
    }
    let progress = num_of(b, 1, f);
    Ok(Meaning::KeepAlive(progress))
}
