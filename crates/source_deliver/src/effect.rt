// What a delivery comes to, and what that does to the state. It is decided before anything is changed: a caller who holds the state elsewhere has no more to
// change than what the effect says.
// After cfdp-rs 0.3.0, src/source.rs (Apache-2.0); changed, see NOTICE.
ghost use Rattle.std.specs.Prelude.{◌≡◌, Bool};
ghost use Rattle.rules.specs.States.{to_step};
ghost use Rattle.rules.specs.Deliver.{finished_of};
ghost use Rattle.types.specs.declared.TransactionStep.TheVariants.{WaitingForFinished};
ghost use Rattle.source_deliver.specs.Effects.{answer_by, moved_by as movedIs, queue_by, delivered_by, moves_queue};

use source_queue::nak::push_all;
use source_state::{empty_queue, to_step};
use types::{Delivery, FinishedParams, Queue, Refusal, State, TransactionStep};

// Of one that is not refused.
#[derive(Clone, Copy)]
pub enum Effect {
    NoEffect,
    // an ACK of EOF
    WaitForFinished,
    // a Finished PDU
    Close(FinishedParams),
    // a NAK: its n requests, from a place of the delivered bytes on
    Enqueue { large: bool, at: usize, n: usize },
}

// What a delivery comes to, and how many of its bytes are the PDU's; of a Malformed one, none.
#[derive(Clone, Copy)]
pub struct Arrival {
    pub effect: Result<Effect, Refusal>,
    pub length: usize,
}

pub fn answer_by(e: Result<Effect, Refusal>) -> Result<(), Refusal>
    ensures { result ≡ answer_by e }
{
    e?;
    Ok(())
}

// A Finished PDU: closing; an owed EOF is dropped, and so is the queue.
fn handle_finished_pdu(s: &mut State, p: FinishedParams)
    ensures { s.new ≡ finished_of s.old p }
{
    s.queue = empty_queue();
    s.marks.owed = false;
    s.marks.finished = p;
    to_step(s, TransactionStep::Closing);
}

// The state after it, but for a NAK's requests.
pub fn moved_by(s: &mut State, e: Result<Effect, Refusal>)
    ensures { s.new ≡ movedIs s.old e }
{
    match e {
        Ok(Effect::WaitForFinished) => to_step(s, TransactionStep::WaitingForFinished),
        Ok(Effect::Close(p)) => handle_finished_pdu(s, p),
        _ => {}
    }
}

pub fn queue_by(q: Queue, bytes: &[u8], e: Result<Effect, Refusal>) -> Queue
    ensures { result ≡ queue_by q bytes.now e }
{
    match e {
        Ok(Effect::Close(_)) => empty_queue(),
        Ok(Effect::Enqueue { large, at, n }) => push_all(q, bytes, large, at, n),
        _ => q,
    }
}

pub fn moves_queue(e: Result<Effect, Refusal>) -> bool
    ensures { result ≡ moves_queue e }
{
    matches!(e, Ok(Effect::Close(_) | Effect::Enqueue { .. }))
}

pub(crate) fn delivered_by(s: &mut State, bytes: &[u8], a: Arrival) -> Delivery
    ensures { (record { answer = result.answer; length = result.length; state = s.new }) ≡ delivered_by s.old bytes.now a }
{
    let queue = queue_by(s.queue, bytes, a.effect);
    moved_by(s, a.effect);
    s.queue = queue;
    Delivery {
        answer: answer_by(a.effect),
        length: a.length,
    }
}
