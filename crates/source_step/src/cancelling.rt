// Whether a user's cancel is taken.
// After cfdp-rs 0.3.0, src/source.rs (Apache-2.0); changed, see NOTICE.
ghost use Rattle.std.specs.Prelude.{◌≡◌};
ghost use Rattle.rules.specs.Cancel.{can_cancel, may_cancel};

use types::{EntityId, State, TransactionSeqNum, TransactionStep};

fn can_cancel(step: TransactionStep) -> bool
    ensures { result ≡ can_cancel step }
{
    !matches!(step, TransactionStep::Idle | TransactionStep::Closing)
}

// Ids and numbers are compared by value, not by width.
#[tactic(auto, unfolding(rules::specs::Cancel::may_cancel))]
pub(crate) fn may_cancel(s: &State, source: EntityId, number: TransactionSeqNum) -> bool
    ensures { result ≡ may_cancel s.now source number }
{
    let head = s.fixed.head;
    can_cancel(s.step)
        && !s.marks.cancelled
        && source.1 == head.source.1
        && number.1 == head.number.1
}
