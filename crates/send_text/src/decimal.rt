// Decimal numbers.
ghost use Rattle.std.specs.Prelude.{◌≡◌, Some};
ghost use Rattle.send_text.specs.Decimal.{more_of, number_in};

// The number so far with one byte more.
fn more(v: u64, b: u8) -> Option<u64>
    ensures { result ≡ more_of (Some v) b }
{
    if !b.is_ascii_digit() {
        return None;
    }
    v.checked_mul(10)?.checked_add(u64::from(b - b'0'))
}

// A decimal number below 2^64; an empty word is none.
pub fn number(s: &[u8]) -> Option<u64>
    ensures { result ≡ number_in s.now }
{
    if s.is_empty() {
        return None;
    }
    let mut v = 0;
    for b in s {
        v = more(v, *b)?;
    }
    Some(v)
}
