// A delivery on the memory: no more is stored than what it changes.
ghost use Rattle.std.specs.Prelude.{◌≡◌};
ghost use Rattle.seam.specs.Told.{heard_done};

use crate::answer::code_of;
use crate::events::no_report;
use crate::stored::store_light;
use seam_rules::memory::{DeliverReport, Handler};
use source_deliver::effect::{Arrival, Effect, moved_by, moves_queue, queue_by};
use types::{Refusal, State};

// The code; a refusal stores nothing. s is the state before the delivery.
#[tactic(auto, unfolding(crate::specs::Parts::queued))]
pub(crate) fn store_effect(
    h: &mut Handler,
    s: &State,
    bytes: &[u8],
    e: Result<Effect, Refusal>,
) -> u32
    ensures { (record { code = result; held = h.new }) ≡ heard_done h.old s.now bytes.now e }
{
    match e {
        Ok(_) => {
            let mut t = *s;
            moved_by(&mut t, e);
            store_light(h, &s.fixed, &t, no_report());
            if moves_queue(e) {
                h.queue = queue_by(h.queue, bytes, e);
            }
            0
        }
        Err(k) => code_of(Err(k)),
    }
}

// What a delivery says, a refused one too: how many of its bytes are the PDU's.
pub(crate) fn told(a: &Arrival) -> DeliverReport
    ensures { result ≡ record { length = a.now.length } }
{
    DeliverReport {
        length: a.length as u64,
    }
}
