// What all readers take: a byte, a part or a number that may lie past the end; and the widths of a size and of a CRC, which the writers take too.
ghost use Rattle.std.specs.Prelude.{◌≡◌, ◌+◌, ◌-◌, ◌*◌, ◌<◌, ◌≤◌, ◌^◌, length};
ghost use Rattle.basis.specs.Bytes.{byte, part, num_at};
ghost use Rattle.rules_pdu.specs.Numbers.{F, C};

use basis::fields::{num, num_at};

// The byte at a place, and 0 past the end.
#[tactic(auto, using(std::proofs::lemmas::Option::gets), unfolding(basis::specs::Bytes::byte))]
pub fn byte_at(s: &[u8], i: usize) -> u8
    ensures { result ≡ byte s.now i }
{
    s.get(i).copied().unwrap_or(0)
}

// At most w bytes from a place on: those that are there.
#[tactic(auto, using(crate::proofs::Fields::cutting), unfolding(basis::specs::Bytes::part))]
pub fn part_of(s: &[u8], at: usize, w: usize) -> &[u8]
    ensures { result.now ≡ part s.now at w }
{
    let start = at.min(s.len());
    let end = start + w.min(s.len() - start);
    &s[start..end]
}

// The number in w bytes from a place on.
// Stays: a place and a width beside the bytes, and a width of at most eight asked for here, in `num_in` and in crate stream: a type for either would be made and taken apart at each call, and the definitions (`num_at`, `part`) are by them.
pub fn num_of(s: &[u8], at: usize, w: usize) -> u64
    requires { w ≤ 8 }
    ensures { (result ≡ num_at s.now at w) × (result < 2 ^ (8 * w)) }
{
    num_at(s, at, w)
}

// .. that are there.
// Stays: by `num_of`, which asks again whether they are there, a short delivery costs some 48 instructions more, where 3 percent (11 of an ACK's 346) is the bar (docs/CHECKTIME.md, R-4).
#[tactic(auto, using(crate::proofs::Fields::cutting), unfolding(basis::specs::Bytes::part, basis::specs::Bytes::num_at))]
pub(crate) fn num_in(s: &[u8], at: usize, w: usize) -> u64
    requires { (w ≤ 8) × (at + w ≤ length s.now) }
    ensures { result ≡ num_at s.now at w }
{
    num(&s[at..at + w])
}

// "F = 4 (Normal) or 8 (Large)"
pub fn size_width(large: bool) -> usize
    ensures { (result ≡ F large) × (result ≤ 8) }
{
    if large { 8 } else { 4 }
}

// "C = 2 with the CRC flag, else 0"
pub fn crc_length(crc: bool) -> usize
    ensures { (result ≡ C crc) × (result ≤ 2) }
{
    if crc { 2 } else { 0 }
}
