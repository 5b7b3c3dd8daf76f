// What a step does to the names and the queue, most of the state's bytes. In most cases nothing: then a caller who holds the state elsewhere need not touch them.
// After cfdp-rs 0.3.0, src/source.rs (Apache-2.0); changed, see NOTICE.
ghost use Rattle.std.specs.Prelude.{◌≡◌, Some, None};
ghost use Rattle.basis.specs.Pick.{pick};
ghost use Rattle.source_step.specs.declared.bulk.Bulk.TheVariants.{Idle};
ghost use Rattle.source_step.specs.Bulk.{bulk_of};

use types::{Due, State};

#[derive(Clone, Copy)]
pub enum Bulk {
    // the oldest request is served
    Served,
    // the queue is emptied
    Emptied,
    // all is Idle's
    Idle,
}

// 5: the EOF is the end in unacknowledged mode without closure.
fn bulk_after_eof(s: &State) -> Option<Bulk>
    ensures { result ≡ pick s.now.fixed.head.unacknowledged (pick s.now.fixed.closure None (Some Idle)) None }
{
    if s.fixed.head.unacknowledged && !s.fixed.closure {
        Some(Bulk::Idle)
    } else {
        None
    }
}

// None: both stay.
pub fn bulk_of(s: &State, d: Due) -> Option<Bulk>
    ensures { result ≡ bulk_of s.now d }
{
    let unacknowledged = s.fixed.head.unacknowledged;
    match d {
        Due::CancelEof => {
            if unacknowledged {
                Some(Bulk::Idle)
            } else {
                None
            }
        }
        Due::Repair => Some(Bulk::Served),
        Due::NoErrorEof => bulk_after_eof(s),
        Due::FaultCancel(_) => {
            if unacknowledged {
                Some(Bulk::Idle)
            } else {
                Some(Bulk::Emptied)
            }
        }
        Due::FaultAbandon(_) | Due::Close => Some(Bulk::Idle),
        Due::Metadata | Due::Data | Due::EofAgain | Due::FaultIgnore(_) | Due::Nothing => None,
    }
}
