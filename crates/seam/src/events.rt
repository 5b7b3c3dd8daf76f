// What an accepted step said, as numbers.
ghost use Rattle.std.specs.Prelude.{◌≡◌};
ghost use Rattle.seam_rules.specs.Memory.{timer_no, reported, no_report};

// Stays: plain functions between the types of two other crates: an impl of From can stand in neither's place here.
use seam_rules::memory::Report;
use types::{EntityId, Fault, FinishedParams, Made, Timer, TransactionSeqNum};

fn timer_no(t: Option<Timer>) -> u8
    ensures { result ≡ timer_no t }
{
    match t {
        None => 0,
        Some(t) => t as u8,
    }
}

// Of no fault the numbers are 0, and so are the values of no finished event.
#[tactic(auto, using(crate::proofs::Numbers::fault_numbers, crate::proofs::Numbers::finished_numbers), unfolding(seam_rules::specs::Memory::reported))]
pub fn reported(m: Made) -> Report
    ensures { result ≡ reported m }
{
    let e = m.events;
    let fault = e.fault.unwrap_or(Fault {
        action: 0,
        condition: 0,
        progress: 0,
    });
    let values = e.finished.unwrap_or(FinishedParams {
        condition: 0,
        delivery: 0,
        status: 0,
    });
    Report {
        length: m.length as u64,
        progress: fault.progress,
        source: e.id.0,
        number: e.id.1,
        transaction: e.transaction.into(),
        eofsent: e.eofsent.into(),
        fault: e.fault.is_some().into(),
        action: fault.action,
        condition: fault.condition,
        finished: e.finished.is_some().into(),
        values,
        timer: timer_no(e.timer),
    }
}

// After an accepted call that is no step.
pub fn no_report() -> Report
    ensures { result ≡ no_report }
{
    Report {
        length: 0,
        progress: 0,
        source: EntityId(0, 0),
        number: TransactionSeqNum(0, 0),
        transaction: 0,
        eofsent: 0,
        fault: 0,
        action: 0,
        condition: 0,
        finished: 0,
        values: FinishedParams {
            condition: 0,
            delivery: 0,
            status: 0,
        },
        timer: 0,
    }
}
