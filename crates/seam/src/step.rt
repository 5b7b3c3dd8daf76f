// A step on the memory: no more is stored than what it changes.
ghost use Rattle.std.specs.Prelude.{◌≡◌};
ghost use Rattle.seam_rules.specs.Seam.{step_done, step_out};
ghost use Rattle.seam.specs.Parts.{light_of, bulk_held, held_with};
ghost use Rattle.seam.specs.Told.{told_done};

use crate::answer::code_of;
use crate::events::reported;
use crate::stored::{store, store_light};
use seam_rules::memory::{Handler, Report};
use source_step::bulk::{Bulk, bulk_of};
use source_step::events::events_of;
use source_step::outcome::Outcome;
use types::{Fixed, Made, Refusal, State};

// The state s after it, where f is what the put fixed and the names or the queue move.
// Stays: what the put fixed, the state and the report apart, here and in `store_light`: `light_of` takes them so, and a struct of them would be taken apart in each contract.
#[tactic(auto, unfolding(crate::specs::Parts::queued))]
fn store_bulk(h: &mut Handler, f: &Fixed, s: &State, r: Report, b: Bulk)
    ensures { h.new ≡ bulk_held h.old (light_of f.now s.now r) b }
{
    match b {
        Bulk::Served => {
            let q = source_queue::served(h.transaction.segment, h.queue);
            store_light(h, f, s, r);
            h.queue = q;
        }
        Bulk::Emptied => {
            store_light(h, f, s, r);
            h.queue = source_state::empty_queue();
        }
        Bulk::Idle => store(h, &source_state::idle(h.number), r),
    }
}

// .. where it may be that neither does.
fn store_step(h: &mut Handler, f: &Fixed, s: &State, r: Report, b: Option<Bulk>)
    ensures { h.new ≡ held_with h.old (light_of f.now s.now r) b }
{
    match b {
        None => store_light(h, f, s, r),
        Some(b) => store_bulk(h, f, s, r, b),
    }
}

// The code; a refusal stores nothing. s is the state before the step.
pub(crate) fn store_outcome(h: &mut Handler, s: &State, o: Result<Outcome, Refusal>) -> u32
    ensures { (record { code = result; held = h.new }) ≡ told_done h.old s.now o }
{
    match o {
        Ok(o) => {
            let report = reported(Made {
                length: o.length,
                events: events_of(s, o.due),
            });
            let bulk = bulk_of(s, o.due);
            let mut t = *s;
            source_step::after::after_of(&mut t, o.sum, o.due);
            store_step(h, &s.fixed, &t, report, bulk);
            0
        }
        Err(k) => code_of(Err(k)),
    }
}
