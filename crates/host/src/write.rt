// The answers written, each field only where it fits; `run` keeps room for the whole record.
ghost use Rattle.std.specs.Prelude.{◌≡◌};
ghost use Rattle.host.specs.Told.{bit, timer_bits, event_bits};

use crate::kind::{ACK_TIMER, CHECK_TIMER, EOF_SENT, FAULT, FINISHED, TRANSACTION};
use types::{Events, Made, Timer, TransactionId};

// The room that is left for answers, of the room that there was.
#[derive(Drop)]
pub struct Answers<'a> {
    rest: &'a mut [u8],
    size: usize,
}

fn flag(b: bool, v: u8) -> u8
    ensures { result ≡ bit b v }
{
    if b { v } else { 0 }
}

fn timer_bits(t: Option<Timer>) -> u8
    ensures { result ≡ timer_bits t }
{
    match t {
        None => 0,
        Some(Timer::Ack) => ACK_TIMER,
        Some(Timer::Check) => CHECK_TIMER,
    }
}

#[tactic(auto, unfolding(crate::specs::Told::event_bits))]
fn event_bits(e: Events) -> u8
    ensures { result ≡ event_bits e }
{
    flag(e.transaction, TRANSACTION)
        + flag(e.eofsent, EOF_SENT)
        + flag(e.fault.is_some(), FAULT)
        + flag(e.finished.is_some(), FINISHED)
        + timer_bits(e.timer)
}

impl<'a> Answers<'a> {
    pub fn new(out: &'a mut [u8]) -> Self {
        let size = out.len();
        Answers { rest: out, size }
    }

    pub fn room(&self) -> usize {
        self.rest.len()
    }

    pub fn written(&self) -> usize {
        self.size.saturating_sub(self.rest.len())
    }

    pub fn add(&mut self, s: &[u8]) {
        if let Some(part) = self.rest.split_off_mut(..s.len()) {
            part.copy_from_slice(s);
        }
    }

    fn add_id(&mut self, TransactionId(source, number): TransactionId) {
        self.add(&[source.0]);
        self.add(&source.1.to_be_bytes());
        self.add(&[number.0]);
        self.add(&number.1.to_be_bytes());
    }

    // The set of events in a byte; where there are any, the transaction, and what fault and finished carry.
    fn add_events(&mut self, e: Events) {
        let bits = event_bits(e);
        self.add(&[bits]);
        if bits != 0 {
            self.add_id(e.id);
            if let Some(f) = e.fault {
                self.add(&[f.action, f.condition]);
                self.add(&f.progress.to_be_bytes());
            }
            if let Some(f) = e.finished {
                self.add(&[f.condition, f.delivery, f.status]);
            }
        }
    }

    // What a step made that was refused: no PDU and no event.
    pub fn add_nothing(&mut self) {
        self.add(&[0, 0, 0]);
    }

    // What a step made: the PDU's length in two bytes, the PDU, the events. Answers what is left of the space behind the PDU.
    pub fn add_made<'s>(&mut self, m: Made, space: &'s [u8]) -> &'s [u8] {
        let (pdu, rest) = space.split_at(m.length.min(space.len()));
        self.add(&m.length.to_be_bytes()[6..]);
        self.add(pdu);
        self.add_events(m.events);
        rest
    }

    // What the steps of a burst made, whose PDUs lie end to end in `space`.
    pub fn add_steps(&mut self, steps: &[Made], space: &[u8]) {
        let mut rest = space;
        for m in steps {
            rest = self.add_made(*m, rest);
        }
    }
}
