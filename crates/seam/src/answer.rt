// What is returned, and what of a call is stored where all of it is.
ghost use Rattle.std.specs.Prelude.{◌≡◌};
ghost use Rattle.rules.specs.Refusals.{answer_no};
ghost use Rattle.seam_rules.specs.Memory.{no_report};
ghost use Rattle.seam_rules.specs.Seam.{by_answer, by_word};

use crate::events::no_report;
use crate::stored::store;
use seam_rules::memory::Handler;
use types::{Refusal, State};

pub(crate) fn code_of(a: Result<(), Refusal>) -> u32
    ensures { result ≡ answer_no a }
{
    u32::from(source::answers::answer_no(a))
}

// A refusal leaves all as it was.
pub(crate) fn store_accepted(h: &mut Handler, s: &State, a: Result<(), Refusal>) -> u32
    ensures { (record { code = result; held = h.new }) ≡ by_answer h.old s.now no_report a }
{
    if a.is_ok() {
        store(h, s, no_report());
    }
    code_of(a)
}

// A cancel's yes or no; a no leaves all as it was.
pub(crate) fn store_word(h: &mut Handler, s: &State, yes: bool) -> u32
    ensures { (record { code = result; held = h.new }) ≡ by_word h.old (record { yes = yes; state = s.now }) }
{
    if yes {
        store(h, s, no_report());
    }
    yes.into()
}
