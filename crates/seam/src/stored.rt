// The state stored in the memory, group by group: the whole, or no more than what a step or a delivery moved.
ghost use Rattle.std.specs.Prelude.{◌≡◌};
ghost use Rattle.rules.specs.States.{step_no};
ghost use Rattle.seam_rules.specs.Memory.{fixed_stored, marks_stored, held_of};
ghost use Rattle.seam.specs.Parts.{light_of, light_held};

// Stays: plain functions between the types of two other crates: an impl of From can stand in neither's place here.
use seam_rules::memory::{Handler, HeldMarks, Report, Transaction};
use types::{Fixed, Marks, State, TransactionStep};

fn step_no(step: TransactionStep) -> u8
    ensures { result ≡ step_no step }
{
    step as u8
}

#[tactic(auto, unfolding(seam_rules::specs::Memory::fixed_stored))]
fn fixed_stored(f: &Fixed) -> Transaction
    ensures { result ≡ fixed_stored f.now }
{
    Transaction {
        source: f.head.source,
        number: f.head.number,
        destination: f.head.destination,
        segment: f.segment,
        size: f.size,
        actions: f.actions,
        unacknowledged: f.head.unacknowledged.into(),
        crc: f.head.crc.into(),
        large: f.head.large.into(),
        closure: f.closure.into(),
        checksum: f.checksum,
        limit: f.limit,
        eofsent: f.eofsent.into(),
        finished: f.finished.into(),
    }
}

#[tactic(auto, unfolding(seam_rules::specs::Memory::marks_stored))]
fn marks_stored(m: &Marks) -> HeldMarks
    ensures { result ≡ marks_stored m.now }
{
    HeldMarks {
        cancelled: m.cancelled.into(),
        owed: m.owed.into(),
        condition: m.condition,
        count: m.count,
        finished: m.finished,
        anomalies: m.anomalies,
    }
}

// All of it, beside the configuration, which stays.
#[tactic(auto, unfolding(seam_rules::specs::Memory::held_of))]
pub fn store(h: &mut Handler, s: &State, r: Report)
    ensures { h.new ≡ held_of h.old.config s.now r }
{
    h.number = s.number;
    h.step = step_no(s.step);
    h.transaction = fixed_stored(&s.fixed);
    h.names = s.names;
    h.file = s.file;
    h.queue = s.queue;
    h.marks = marks_stored(&s.marks);
    h.report = r;
}

// Where the names and the queue, most of a handler's bytes, stay as they are, and so do the next put's number and what the put fixed, f.
#[tactic(auto, unfolding(crate::specs::Parts::light_of, crate::specs::Parts::light_held))]
pub(crate) fn store_light(h: &mut Handler, f: &Fixed, s: &State, r: Report)
    ensures { h.new ≡ light_held h.old (light_of f.now s.now r) }
{
    h.step = step_no(s.step);
    h.transaction = fixed_stored(f);
    h.file = s.file;
    h.marks = marks_stored(&s.marks);
    h.report = r;
}
