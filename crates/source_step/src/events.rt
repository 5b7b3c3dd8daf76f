// The events of each case, one record in their fixed order.
// After cfdp-rs 0.3.0, src/source.rs (Apache-2.0); changed, see NOTICE.
ghost use Rattle.std.specs.Prelude.{◌≡◌, false, Some};
ghost use Rattle.rules.specs.Step.{id_of, quiet, finished_if, ack_timer, eof_timer, eof_finished, events_of};

use types::{Due, Events, Fault, FinishedParams, State, Timer, TransactionId};

fn id_of(s: &State) -> TransactionId
    ensures { result ≡ id_of s.now }
{
    TransactionId(s.fixed.head.source, s.fixed.head.number)
}

// None.
pub fn quiet(s: &State) -> Events
    ensures { result ≡ quiet s.now }
{
    Events {
        id: id_of(s),
        transaction: false,
        eofsent: false,
        fault: None,
        finished: None,
        timer: None,
    }
}

// A finished event, if the configuration's flag is set.
#[tactic(auto, unfolding(rules::specs::Step::finished_if))]
fn notice_of_completion(s: &State, p: FinishedParams) -> Option<FinishedParams>
    ensures { result ≡ finished_if s.now p }
{
    if s.fixed.finished { Some(p) } else { None }
}

// The ack timer of an EOF that waits for its ACK.
#[tactic(auto, unfolding(rules::specs::Step::ack_timer))]
fn ack_timer(s: &State) -> Option<Timer>
    ensures { result ≡ ack_timer s.now }
{
    if s.fixed.head.unacknowledged {
        None
    } else {
        Some(Timer::Ack)
    }
}

#[tactic(auto, unfolding(rules::specs::Step::eof_timer))]
fn eof_timer(s: &State) -> Option<Timer>
    ensures { result ≡ eof_timer s.now }
{
    match (s.fixed.head.unacknowledged, s.fixed.closure) {
        (false, _) => Some(Timer::Ack),
        (true, true) => Some(Timer::Check),
        (true, false) => None,
    }
}

// Unacknowledged without closure the EOF is the end: no error, complete, unreported.
#[tactic(auto, unfolding(rules::specs::Step::eof_finished))]
fn eof_finished(s: &State) -> Option<FinishedParams>
    ensures { result ≡ eof_finished s.now }
{
    if !s.fixed.head.unacknowledged || s.fixed.closure {
        return None;
    }
    let unreported = FinishedParams {
        condition: 0,
        delivery: 0,
        status: 3,
    };
    notice_of_completion(s, unreported)
}

// An EOF left.
fn eof_sent(
    s: &State,
    fault: Option<Fault>,
    finished: Option<FinishedParams>,
    timer: Option<Timer>,
) -> Events
    ensures { result ≡ record { id = id_of s.now; transaction = false; eofsent = s.now.fixed.eofsent; fault = fault; finished = finished; timer = timer } }
{
    Events {
        eofsent: s.fixed.eofsent,
        fault,
        finished,
        timer,
        ..quiet(s)
    }
}

// A fault: its action by document 01's number.
fn fault(s: &State, action: u8, condition: u8) -> Option<Fault>
    ensures { result ≡ Some (record { action = action; condition = condition; progress = s.now.file.progress }) }
{
    Some(Fault {
        action,
        condition,
        progress: s.file.progress,
    })
}

pub fn events_of(s: &State, d: Due) -> Events
    ensures { result ≡ events_of s.now d }
{
    match d {
        Due::CancelEof => eof_sent(s, None, None, ack_timer(s)),
        Due::Metadata => Events {
            transaction: true,
            ..quiet(s)
        },
        Due::NoErrorEof => eof_sent(s, None, eof_finished(s), eof_timer(s)),
        Due::EofAgain => eof_sent(s, None, None, Some(Timer::Ack)),
        Due::FaultCancel(c) => eof_sent(s, fault(s, 1, c), None, ack_timer(s)),
        Due::FaultIgnore(c) => Events {
            fault: fault(s, 3, c),
            ..quiet(s)
        },
        Due::FaultAbandon(c) => Events {
            fault: fault(s, 4, c),
            ..quiet(s)
        },
        Due::Close => Events {
            finished: notice_of_completion(s, s.marks.finished),
            ..quiet(s)
        },
        Due::Repair | Due::Data | Due::Nothing => quiet(s),
    }
}
