// Code that all crates share: numbers in bytes, highest byte first, written at a place of a lent buffer and read from a place of a
// slice, and a slice copied into a part of a buffer. Each function says the whole buffer it leaves; the definitions are in `basis`.
ghost use Rattle.std.specs.Prelude.{◌≡◌, ◌+◌, ◌*◌, ◌/◌, ◌%◌, ◌<◌, ◌≤◌, ◌^◌, min, length};
ghost use Rattle.basis.specs.Bytes.{be, num as num_of, num_at};
ghost use Rattle.basis.specs.Laid.{laid};

// The byte of v that has k bytes below it; 0 from the eighth on.
fn byte_of(v: u64, k: usize) -> u8
    ensures { result ≡ v / 2 ^ (8 * k) % 256 }
{
    if k >= 8 {
        return 0;
    }
    ((v >> (8 * k)) % 256) as u8
}

// The w lowest bytes of v at a place of out, the highest of them first; the place behind them. The widths that most fields have, one and
// four, are written without the loop: so a header costs less.
// Stays: the place stands beside the buffer, here and below, since each contract says of the whole buffer what it is, or of which bytes a number is (`laid`, `num_at`).
// Stays: one byte and four have ways of their own: without them a burst of sixteen data PDUs of 100 bytes costs some 1,500 instructions more (docs/DECISIONS.md), and it may take 60 percent of its calls.
pub fn put_be(out: &mut [u8], at: usize, w: usize, v: u64) -> usize
    requires { at + w ≤ length out.old }
    ensures { (result ≡ at + w) × (out.new ≡ laid out.old at (be w v)) }
{
    if w == 1 {
        out[at] = byte_of(v, 0);
        return at + 1;
    }
    if w == 4 {
        return put_bytes(out, at, &v.to_be_bytes()[4..]);
    }
    for k in 0..w {
        out[at + k] = byte_of(v, w - 1 - k);
    }
    at + w
}

// A run of bytes at a place of out; the place behind it.
pub fn put_bytes(out: &mut [u8], at: usize, s: &[u8]) -> usize
    requires { at + length s.now ≤ length out.old }
    ensures { (result ≡ at + length s.now) × (out.new ≡ laid out.old at s.now) }
{
    let e = at + s.len();
    out[at..e].copy_from_slice(s);
    e
}

// The number in a run of at most eight bytes.
pub fn num(s: &[u8]) -> u64
    requires { length s.now ≤ 8 }
    ensures { (result ≡ num_of s.now) × (result < 2 ^ (8 * length s.now)) }
{
    let mut v: u64 = 0;
    for &b in s {
        v = v * 256 + b as u64;
    }
    v
}

// The number in w bytes from a place on, of which at most eight count; bytes past the end are not there.
pub fn num_at(s: &[u8], at: usize, w: usize) -> u64
    ensures { (result ≡ num_at s.now at (min w 8)) × (result < 2 ^ (8 * min w 8)) }
{
    if s.len() <= at {
        return 0;
    }
    let e = at + w.min(8).min(s.len() - at);
    num(&s[at..e])
}

// The number in the four bytes from a place on, read at once.
pub fn four(s: &[u8], at: usize) -> u64
    requires { at + 4 ≤ length s.now }
    ensures { (result ≡ num_at s.now at 4) × (result < 4294967296) }
{
    u32::from_be_bytes([s[at], s[at + 1], s[at + 2], s[at + 3]]) as u64
}
