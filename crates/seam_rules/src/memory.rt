// The handler as it lies in memory that a host in C lends, and between that and the values that the calls of crate `source` take and give. The memory holds
// numbers only, and every bit pattern of it is a value. What is taken out and what is stored: specs/Memory.antt; that nothing is lost: specs/Kept.antt.

use types::{EntityId, FileParams, FinishedParams, Names, Queue, TransactionSeqNum};

// Stays: numbers for kinds, flags as bytes, places beside counts, all through this module: it is the struct of C.

// An entry of the table of remote entities. Here and below a flag is a byte: 0 is clear, any other is set.
#[repr(C)]
#[derive(Clone, Copy)]
pub struct Remote {
    pub id: EntityId,
    pub maxpacket: u64,
    pub maxsegment: u64,
    pub checksum: u8,
    pub crc: u8,
    pub unacknowledged: u8,
    pub closure: u8,
    pub limit: u8,
}

// Written by the host; no function changes it, and only a put reads it.
#[repr(C)]
#[derive(Clone, Copy)]
pub struct Config {
    pub id: EntityId,
    pub remotes: [Remote; 8],
    pub count: usize,
    pub actions: [u8; 16],
    pub eofsent: u8,
    pub finished: u8,
}

// What a put fixes: types::Fixed with its head.
#[repr(C)]
#[derive(Clone, Copy)]
pub struct Transaction {
    pub source: EntityId,
    pub number: TransactionSeqNum,
    pub destination: EntityId,
    pub segment: u64,
    pub size: u64,
    pub actions: [u8; 16],
    pub unacknowledged: u8,
    pub crc: u8,
    pub large: u8,
    pub closure: u8,
    pub checksum: u8,
    pub limit: u8,
    pub eofsent: u8,
    pub finished: u8,
}

// types::Marks.
#[repr(C)]
#[derive(Clone, Copy)]
pub struct HeldMarks {
    pub cancelled: u8,
    pub owed: u8,
    pub condition: u8,
    pub count: u8,
    pub finished: FinishedParams,
    pub anomalies: u8,
}

// What the last accepted step said: how many bytes of the out buffer are the PDU (0: none), and the events with their transaction. `progress`, `action`
// and `condition` belong to the fault, `values` to the finished event; `timer` is 0 none, 1 ack timer, 2 check timer.
#[repr(C)]
#[derive(Clone, Copy)]
pub struct Report {
    pub length: u64,
    pub progress: u64,
    pub source: EntityId,
    pub number: TransactionSeqNum,
    pub transaction: u8,
    pub eofsent: u8,
    pub fault: u8,
    pub action: u8,
    pub condition: u8,
    pub finished: u8,
    pub values: FinishedParams,
    pub timer: u8,
}

// What the last accepted burst said: how many steps it made, and what each said, in order; the places behind keep what they held.
#[repr(C)]
#[derive(Clone, Copy)]
pub struct BurstReport {
    pub count: u64,
    pub steps: [Report; 16],
}

// What the last delivery said, a refused one too: how many of the delivered bytes are the PDU's; 0 if it was Malformed.
#[repr(C)]
#[derive(Clone, Copy)]
pub struct DeliverReport {
    pub length: u64,
}

// The handler: `number` is the next put's; `step` is 0 Idle, 1 SendingMetadata, 2 SendingFileData, 3 SendingEof, 4 WaitingForEofAck,
// 5 WaitingForFinished, 6 Closing, and any other number is Idle.
#[repr(C)]
#[derive(Clone, Copy)]
pub struct Handler {
    pub config: Config,
    pub number: TransactionSeqNum,
    pub step: u8,
    pub transaction: Transaction,
    pub names: Names,
    pub file: FileParams,
    pub queue: Queue,
    pub marks: HeldMarks,
    pub report: Report,
}
