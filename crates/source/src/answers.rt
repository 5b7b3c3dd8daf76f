// Answers as document 01's numbers, for hosts that read numbers.
// After cfdp-rs 0.3.0, src/source.rs (Apache-2.0); changed, see NOTICE.
ghost use Rattle.std.specs.Prelude.{◌≡◌};
ghost use Rattle.rules.specs.Refusals.{refusal_no, answer_no};

use types::Refusal;

// Document 01's number of a refusal.
fn refusal_no(r: Refusal) -> u8
    ensures { result ≡ refusal_no r }
{
    r as u8
}

// The number of an answer; 0: accepted.
pub fn answer_no(a: Result<(), Refusal>) -> u8
    ensures { result ≡ answer_no a }
{
    match a {
        Ok(()) => 0,
        Err(r) => refusal_no(r),
    }
}
