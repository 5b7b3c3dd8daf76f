// A step of the sender with its faults, a burst of steps, the user's cancel, reset and a new handler: each call equal to its definition in `rules`.
// A step decides what is due, then has its PDU written, and only then changes the state, so that a refusal changes nothing.
// After cfdp-rs 0.3.0, src/source.rs (Apache-2.0); changed, see NOTICE.
#![tactic(auto)]

pub mod after;
pub mod bulk;
mod cancelling;
pub mod events;
mod going;
pub mod outcome;

ghost use Rattle.std.specs.Prelude.{◌≡◌};
ghost use Rattle.rules.specs.Calls.{stepped_as, bursted_as, StepMeets, BurstMeets, CancelMeets, ResetMeets, NewMeets};

use crate::going::{begun, gone_on, no_steps};
use crate::outcome::outcome_of;
use types::{Burst, EntityId, Made, Refusal, State, TransactionSeqNum};

// One step: at most one PDU, in front of out.
pub fn step(s: &mut State, file: &[u8], expired: bool, out: &mut [u8]) -> Result<Made, Refusal>
    ensures { StepMeets s.old file.now expired out.old out.new (stepped_as s.old result s.new) }
{
    let o = outcome_of(s, file, expired, out)?;
    let events = events::events_of(s, o.due);
    after::after_of(s, o.sum, o.due);
    Ok(Made {
        length: o.length,
        events,
    })
}

// Up to sixteen steps, their PDUs end to end in front of out: the first with `expired`, and refused if it is refused.
pub fn burst(
    s: &mut State,
    file: &[u8],
    expired: bool,
    count: usize,
    out: &mut [u8],
) -> Result<Burst, Refusal>
    ensures { BurstMeets s.old file.now expired count out.old out.new (bursted_as result s.new) }
{
    if count > 16 {
        return Err(Refusal::BurstTooLong);
    }
    if count == 0 {
        return Ok(no_steps());
    }
    let first = step(s, file, expired, out)?;
    Ok(gone_on(s, begun(first, count), file, out))
}

// The user's cancel: its EOF is owed to the next step.
#[tactic(auto, unfolding(rules::specs::Cancel::cancel_outcome))]
pub fn cancel(s: &mut State, source: EntityId, number: TransactionSeqNum) -> bool
    ensures { CancelMeets s.old source number (record { yes = result; state = s.new }) }
{
    let yes = cancelling::may_cancel(s, source, number);
    if yes {
        source_state::marked(s, 15);
    }
    yes
}

// Idle at once: nothing more is sent, and only the sequence number is kept.
#[tactic(auto, unfolding(rules::specs::Cancel::reset_outcome))]
pub fn reset(s: &mut State)
    ensures { ResetMeets s.old s.new }
{
    *s = source_state::idle(s.number);
}

// A handler whose first put takes this number.
#[tactic(auto, unfolding(rules::specs::Cancel::new_outcome))]
pub fn new(number: TransactionSeqNum) -> State
    ensures { NewMeets number result }
{
    source_state::idle(number)
}
