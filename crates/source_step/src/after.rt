// The state after each case of a step. The numbers are those of document 01's list.
// After cfdp-rs 0.3.0, src/source.rs (Apache-2.0); changed, see NOTICE.

ghost use Rattle.std.specs.Prelude.{◌≡◌, ◌+◌, min};
ghost use Rattle.rules.specs.States.{with_queue, with_marks, counted};
ghost use Rattle.rules.specs.Queues.{served};
ghost use Rattle.rules.specs.Step.{after_cancel_eof, after_metadata, after_data, after_eof};
ghost use Rattle.source_step.specs.Once.{sum_after, after_with};

use source_due::sending::next_length;
use source_state::{counted, idle, marked, onward, start_positive_ack_procedure, to_step};
use types::{Due, State, TransactionStep};

// 1: the EOF of a cancel is the end, or waits for its ACK.
#[tactic(auto, unfolding(rules::specs::Step::after_cancel_eof))]
fn notice_of_cancellation(s: &mut State)
    ensures { s.new ≡ after_cancel_eof s.old }
{
    if s.fixed.head.unacknowledged {
        *s = idle(s.number);
    } else {
        start_positive_ack_procedure(s);
    }
}

// 2: the request's rest, or its place free; progress stays.
fn after_repair(s: &mut State)
    ensures { s.new ≡ with_queue s.old (served s.old.fixed.segment s.old.queue) }
{
    s.queue = source_queue::served(s.fixed.segment, s.queue);
}

// 3: an empty file has no data to send.
#[tactic(auto, unfolding(rules::specs::Step::after_metadata))]
fn after_metadata(s: &mut State)
    ensures { s.new ≡ after_metadata s.old }
{
    if s.fixed.size == 0 {
        to_step(s, TransactionStep::SendingEof);
    } else {
        to_step(s, TransactionStep::SendingFileData);
    }
}

// 4: progress moves past the bytes sent, and the checksum with it; at S the EOF is next.
#[tactic(auto, unfolding(rules::specs::Step::after_data))]
fn after_data(s: &mut State, sum: u32)
    ensures { s.new ≡ after_data s.old sum }
{
    let size = s.fixed.size;
    let p = s.file.progress + next_length(s);
    onward(s, p, sum);
    if p == size {
        to_step(s, TransactionStep::SendingEof);
    }
}

// 5: the EOF waits for its ACK or for a Finished PDU, or is the end.
#[tactic(auto, unfolding(rules::specs::Step::after_eof))]
fn after_eof(s: &mut State)
    ensures { s.new ≡ after_eof s.old }
{
    match (s.fixed.head.unacknowledged, s.fixed.closure) {
        (false, _) => start_positive_ack_procedure(s),
        (true, true) => to_step(s, TransactionStep::WaitingForFinished),
        (true, false) => *s = idle(s.number),
    }
}

// 6: the same EOF was sent again. The count stays below the limit where this is due, and passes it nowhere.
fn after_eof_again(s: &mut State)
    ensures { s.new ≡ with_marks s.old (counted s.old.marks (min (s.old.marks.count + 1) s.old.fixed.limit)) }
{
    let n = s.marks.count.saturating_add(1).min(s.fixed.limit);
    counted(s, n);
}

// The checksum behind the step: only a piece of the first pass moves it, and only its bytes are read.
pub(crate) fn sum_after(s: &State, file: &[u8], d: Due) -> u32
    ensures { result ≡ sum_after s.now file.now d }
{
    match d {
        Due::Data => source_due::sending::sum_behind(s, file),
        _ => s.file.sum,
    }
}

// `sum` is the checksum behind the step.
pub fn after_of(s: &mut State, sum: u32, d: Due)
    ensures { s.new ≡ after_with s.old sum d }
{
    match d {
        Due::CancelEof => notice_of_cancellation(s),
        Due::Repair => after_repair(s),
        Due::Metadata => after_metadata(s),
        Due::Data => after_data(s, sum),
        Due::NoErrorEof => after_eof(s),
        Due::EofAgain => after_eof_again(s),
        Due::FaultCancel(c) => {
            marked(s, c);
            notice_of_cancellation(s);
        }
        Due::FaultIgnore(_) => counted(s, 0),
        Due::FaultAbandon(_) | Due::Close => *s = idle(s.number),
        Due::Nothing => {}
    }
}
