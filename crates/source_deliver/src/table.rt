// "Answer to a PDU that passed 20, 21 and 23": by row the step, by column the kind of PDU.
// After cfdp-rs 0.3.0, src/source.rs (Apache-2.0); changed, see NOTICE.
ghost use Rattle.std.specs.Prelude.{◌≡◌};
ghost use Rattle.rules.specs.Deliver.{row_of, verdict_of};

use types::{Meaning, Row, TransactionStep, Verdict};

// A row for each step, in the order of their numbers.
const TABLE: [Row; 7] = [
    // Idle
    Row {
        nak: Verdict::Refuse,
        ack: Verdict::Refuse,
        finished: Verdict::NoEffect,
        keepalive: Verdict::NoEffect,
    },
    // SendingMetadata
    Row {
        nak: Verdict::Refuse,
        ack: Verdict::Refuse,
        finished: Verdict::Refuse,
        keepalive: Verdict::NoEffect,
    },
    // SendingFileData
    Row {
        nak: Verdict::Enqueue,
        ack: Verdict::Refuse,
        finished: Verdict::Refuse,
        keepalive: Verdict::NoEffect,
    },
    // SendingEof
    Row {
        nak: Verdict::Enqueue,
        ack: Verdict::Refuse,
        finished: Verdict::Refuse,
        keepalive: Verdict::NoEffect,
    },
    // WaitingForEofAck
    Row {
        nak: Verdict::Enqueue,
        ack: Verdict::Move,
        finished: Verdict::Refuse,
        keepalive: Verdict::NoEffect,
    },
    // WaitingForFinished
    Row {
        nak: Verdict::Enqueue,
        ack: Verdict::Refuse,
        finished: Verdict::Move,
        keepalive: Verdict::NoEffect,
    },
    // Closing
    Row {
        nak: Verdict::Refuse,
        ack: Verdict::Refuse,
        finished: Verdict::Refuse,
        keepalive: Verdict::NoEffect,
    },
];

fn row_of(step: TransactionStep) -> Row
    ensures { result ≡ row_of step }
{
    TABLE[step as usize]
}

pub fn verdict_of(step: TransactionStep, m: Meaning) -> Verdict
    ensures { result ≡ verdict_of step m }
{
    let row = row_of(step);
    match m {
        Meaning::Finished(_) => row.finished,
        Meaning::AckOfEof => row.ack,
        Meaning::Nak(_) => row.nak,
        Meaning::KeepAlive(_) => row.keepalive,
    }
}
