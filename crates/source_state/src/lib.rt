// The handler's state: its groups changed one at a time, and Idle.
// After cfdp-rs 0.3.0, src/source.rs (Apache-2.0); changed, see NOTICE.
#![tactic(auto)]

ghost use Rattle.std.specs.Prelude.{◌≡◌};
ghost use Rattle.rules.specs.States.{is_idle, to_step, with_marks, counted, idle, empty_queue, no_fixed, no_names, no_file, no_marks};
ghost use Rattle.rules.specs.Step.{onward, awaiting, fault_marked};

use types::{
    EntityId, FileParams, FinishedParams, Fixed, Head, Marks, Names, Queue, SegmentRequest, State,
    TransactionSeqNum, TransactionStep,
};

pub fn is_idle(step: TransactionStep) -> bool
    ensures { result ≡ is_idle step }
{
    matches!(step, TransactionStep::Idle)
}

pub fn to_step(s: &mut State, step: TransactionStep)
    ensures { s.new ≡ to_step s.old step }
{
    s.step = step;
}

// Progress and the checksum move together: only first-pass bytes do this.
pub fn onward(s: &mut State, progress: u64, sum: u32)
    ensures { s.new ≡ onward s.old progress sum }
{
    s.file = FileParams { progress, sum };
}

// The expiry count.
pub fn counted(s: &mut State, n: u8)
    ensures { s.new ≡ with_marks s.old (counted s.old.marks n) }
{
    s.marks.count = n;
}

// An EOF left that has to be acknowledged: it is no longer owed, and the count starts.
pub fn start_positive_ack_procedure(s: &mut State)
    ensures { s.new ≡ awaiting s.old }
{
    s.marks.owed = false;
    s.marks.count = 0;
    s.step = TransactionStep::WaitingForEofAck;
}

pub fn empty_queue() -> Queue
    ensures { result ≡ empty_queue }
{
    Queue {
        places: [SegmentRequest { start: 0, end: 0 }; 64],
        count: 0,
    }
}

// Cancelled with this condition, by a fault or by the user: the mark set, the queue emptied, the EOF owed.
pub fn marked(s: &mut State, condition: u8)
    ensures { s.new ≡ fault_marked s.old condition }
{
    s.queue = empty_queue();
    s.marks.cancelled = true;
    s.marks.owed = true;
    s.marks.condition = condition;
}

fn no_fixed() -> Fixed
    ensures { result ≡ no_fixed }
{
    Fixed {
        head: Head {
            unacknowledged: false,
            crc: false,
            large: false,
            source: EntityId(0, 0),
            number: TransactionSeqNum(0, 0),
            destination: EntityId(0, 0),
        },
        closure: false,
        checksum: 0,
        segment: 0,
        size: 0,
        limit: 0,
        actions: [0; 16],
        eofsent: false,
        finished: false,
    }
}

fn no_names() -> Names
    ensures { result ≡ no_names }
{
    Names {
        source: [0; 255],
        sourcelen: 0,
        destination: [0; 255],
        destinationlen: 0,
    }
}

pub fn no_file() -> FileParams
    ensures { result ≡ no_file }
{
    FileParams {
        progress: 0,
        sum: 0,
    }
}

pub fn no_marks() -> Marks
    ensures { result ≡ no_marks }
{
    Marks {
        cancelled: false,
        owed: false,
        condition: 0,
        count: 0,
        finished: FinishedParams {
            condition: 0,
            delivery: 0,
            status: 0,
        },
        anomalies: 0,
    }
}

// Every way to Idle keeps only the sequence number.
pub fn idle(number: TransactionSeqNum) -> State
    ensures { result ≡ idle number }
{
    State {
        number,
        step: TransactionStep::Idle,
        fixed: no_fixed(),
        names: no_names(),
        file: no_file(),
        queue: empty_queue(),
        marks: no_marks(),
    }
}
