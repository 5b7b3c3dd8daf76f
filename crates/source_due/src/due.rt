// What is due: "A step does the first that applies". The numbers are those of document 01's list.
// After cfdp-rs 0.3.0, src/source.rs (Apache-2.0); changed, see NOTICE.
ghost use Rattle.std.specs.Prelude.{◌≡◌, ◌+◌, ◌<◌, leb};
ghost use Rattle.rules.specs.Step.{action_for, fault_due, ack_expired, check_expired, due_at, eof_owed, due_of};

use types::{Due, State, TransactionStep};

// Stays: actions and conditions are document 01's numbers here, as `action_for` and `fault_due` have them.

// The configured action of the condition; once cancelled it is abandon.
#[tactic(auto, unfolding(rules::specs::Step::action_for))]
fn action_for(s: &State, condition: u8) -> u8
    requires { condition < 16 }
    ensures { result ≡ action_for s.now condition }
{
    if s.marks.cancelled {
        4
    } else {
        s.fixed.actions[condition as usize]
    }
}

#[tactic(auto, unfolding(rules::specs::Step::fault_due))]
fn declare_fault(s: &State, condition: u8) -> Due
    requires { condition < 16 }
    ensures { result ≡ fault_due s.now condition }
{
    match action_for(s, condition) {
        1 => Due::FaultCancel(condition),
        3 => Due::FaultIgnore(condition),
        _ => Due::FaultAbandon(condition),
    }
}

// Counted in more than a byte: a count of 255 has a successor here.
fn limit_reached(s: &State) -> bool
    ensures { result ≡ leb s.now.fixed.limit (s.now.marks.count + 1) }
{
    u16::from(s.marks.count) + 1 >= u16::from(s.fixed.limit)
}

// 6: positive ACK limit reached, or the same EOF again.
#[tactic(auto, unfolding(rules::specs::Step::ack_expired))]
fn ack_expired(s: &State, expired: bool) -> Due
    ensures { result ≡ ack_expired s.now expired }
{
    if !expired {
        return Due::Nothing;
    }
    if limit_reached(s) {
        return declare_fault(s, 1);
    }
    Due::EofAgain
}

// 7: check limit reached.
#[tactic(auto, unfolding(rules::specs::Step::check_expired))]
fn check_expired(s: &State, expired: bool) -> Due
    ensures { result ≡ check_expired s.now expired }
{
    if s.fixed.head.unacknowledged && expired {
        declare_fault(s, 10)
    } else {
        Due::Nothing
    }
}

// 3 to 9, by the step.
fn due_at(step: TransactionStep, s: &State, expired: bool) -> Due
    ensures { result ≡ due_at step s.now expired }
{
    match step {
        TransactionStep::Idle => Due::Nothing,
        TransactionStep::SendingMetadata => Due::Metadata,
        TransactionStep::SendingFileData => Due::Data,
        TransactionStep::SendingEof => Due::NoErrorEof,
        TransactionStep::WaitingForEofAck => ack_expired(s, expired),
        TransactionStep::WaitingForFinished => check_expired(s, expired),
        TransactionStep::Closing => Due::Close,
    }
}

// 1: cancelled and EOF owed.
#[tactic(auto, unfolding(rules::specs::Step::eof_owed))]
fn eof_owed(s: &State) -> bool
    ensures { result ≡ eof_owed s.now }
{
    s.marks.cancelled && s.marks.owed
}

// The first that applies.
#[tactic(auto, unfolding(rules::specs::Step::due_of))]
pub fn due_of(s: &State, expired: bool) -> Due
    ensures { result ≡ due_of s.now expired }
{
    if eof_owed(s) {
        return Due::CancelEof;
    }
    if s.queue.count > 0 {
        return Due::Repair;
    }
    due_at(s.step, s, expired)
}
