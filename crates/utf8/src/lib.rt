// UTF-8 by RFC 3629, one byte at a time. What each state stands for is said in specs/ by the ranges that the grammar (`rules_leaves`, Utf8) still wants there,
// and each step is proved to be the grammar's.
#![tactic(auto)]

ghost use Rattle.std.specs.Prelude.{◌≡◌};
ghost use Rattle.basis.specs.Pick.{pick};
ghost use Rattle.rules_leaves.specs.Utf8.{◌to◌, forms, within, broken, begun, onward, is_utf8};
ghost use Rattle.utf8.specs.Meant.{meant};

// What is due: a character or the end; so many tails; the narrower second byte after E0, ED, F0 or F4, and its tails. After Broken, nothing helps.
#[derive(Clone, Copy, PartialEq, Eq)]
enum Wait {
    Any,
    One,
    Two,
    Three,
    AfterE0,
    AfterED,
    AfterF0,
    AfterF4,
    Broken,
}

// A byte from lo to hi leads on, any other breaks.
fn within(lo: u8, hi: u8, on: Wait, b: u8) -> Wait
    ensures { meant result ≡ pick (within (lo to hi) b) (meant on) broken }
{
    if lo <= b && b <= hi { on } else { Wait::Broken }
}

// The first byte of a character.
fn first(b: u8) -> Wait
    ensures { meant result ≡ begun b forms }
{
    // Most bytes are ASCII: tested for by itself, that costs less than as an arm.
    if b < 0x80 {
        return Wait::Any;
    }
    match b {
        0xC2..=0xDF => Wait::One,
        0xE0 => Wait::AfterE0,
        0xE1..=0xEC => Wait::Two,
        0xED => Wait::AfterED,
        0xEE..=0xEF => Wait::Two,
        0xF0 => Wait::AfterF0,
        0xF1..=0xF3 => Wait::Three,
        0xF4 => Wait::AfterF4,
        _ => Wait::Broken,
    }
}

// One byte further.
fn next(w: Wait, b: u8) -> Wait
    ensures { meant result ≡ onward (meant w) b }
{
    match w {
        Wait::Any => first(b),
        Wait::One => within(0x80, 0xBF, Wait::Any, b),
        Wait::Two => within(0x80, 0xBF, Wait::One, b),
        Wait::Three => within(0x80, 0xBF, Wait::Two, b),
        Wait::AfterE0 => within(0xA0, 0xBF, Wait::One, b),
        Wait::AfterED => within(0x80, 0x9F, Wait::One, b),
        Wait::AfterF0 => within(0x90, 0xBF, Wait::Two, b),
        Wait::AfterF4 => within(0x80, 0x8F, Wait::Two, b),
        Wait::Broken => Wait::Broken,
    }
}

// Whether the bytes are UTF-8; no bytes are.
pub fn is_utf8(s: &[u8]) -> bool
    ensures { result ≡ is_utf8 s.now }
{
    let mut w = Wait::Any;
    for &b in s {
        w = next(w, b);
    }
    w == Wait::Any
}
