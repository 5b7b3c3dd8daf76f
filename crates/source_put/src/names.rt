// Names copied into the state.
// After cfdp-rs 0.3.0, src/source.rs (Apache-2.0); changed, see NOTICE.
ghost use Rattle.std.specs.Prelude.{◌≡◌};
ghost use Rattle.rules.specs.Put.{padded, padded_length, names_of};

use types::Names;

// Stays: a name is 255 places with its length beside them, as C's struct `Names` has it; no heap.

// The name in front, zeros behind. One that is too long is not copied.
#[tactic(auto, unfolding(rules::specs::Put::padded))]
fn padded(name: &[u8]) -> [u8; 255]
    ensures { result ≡ padded name.now }
{
    let mut a = [0u8; 255];
    if name.len() <= 255 {
        a[..name.len()].copy_from_slice(name);
    }
    a
}

// Its length, or 0.
#[tactic(auto, unfolding(rules::specs::Put::padded_length))]
fn padded_length(name: &[u8]) -> u8
    ensures { result ≡ padded_length name.now }
{
    u8::try_from(name.len()).unwrap_or(0)
}

// Both.
pub fn names_of(source: &[u8], destination: &[u8]) -> Names
    ensures { result ≡ names_of source.now destination.now }
{
    Names {
        source: padded(source),
        sourcelen: padded_length(source),
        destination: padded(destination),
        destinationlen: padded_length(destination),
    }
}
