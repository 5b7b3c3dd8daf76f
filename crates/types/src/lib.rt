// The types that document 01 speaks of. What is right of them is said in `rules` and `rules_pdu`; no code runs here.
// After cfdp-rs 0.3.0, src/source.rs and src/lib.rs (Apache-2.0); changed, see NOTICE.
#![tactic(auto)]

// ---- Numbers

// A width in bytes (1, 2, 4 or 8) and a value that fits it. An entity id can never stand where a sequence number is due.
// Stays: two types of one shape, which C names both.
#[repr(C)]
#[derive(Clone, Copy)]
pub struct EntityId(pub u8, pub u64);

#[repr(C)]
#[derive(Clone, Copy)]
pub struct TransactionSeqNum(pub u8, pub u64);

// ---- PDUs

// What a header says besides the PDU's type, its direction and the length of the data field.
#[derive(Clone, Copy)]
pub struct Head {
    pub unacknowledged: bool,
    pub crc: bool,
    pub large: bool,
    pub source: EntityId,
    pub number: TransactionSeqNum,
    pub destination: EntityId,
}

// A delivery's header, where its body starts and ends among the delivered bytes, and how many of these are the PDU's; what stands behind is fill.
#[derive(Clone, Copy)]
pub struct Frame {
    pub head: Head,
    pub filedata: bool,
    pub tosender: bool,
    pub start: usize,
    pub end: usize,
    pub length: usize,
}

// One request of a NAK: the bytes from start up to end.
#[repr(C)]
#[derive(Clone, Copy, PartialEq, Eq)]
pub struct SegmentRequest {
    pub start: u64,
    pub end: u64,
}

// A Finished PDU's values.
// Stays: numbers, as C has them; a handler's memory may hold any byte here, and each is a value.
#[repr(C)]
#[derive(Clone, Copy, PartialEq, Eq)]
pub struct FinishedParams {
    pub condition: u8,
    pub delivery: u8,
    pub status: u8,
}

// What a PDU for the sender says.
#[derive(Clone, Copy)]
pub enum Meaning {
    Finished(FinishedParams),
    AckOfEof,
    Nak(usize),
    KeepAlive(u64),
}

// Why a body has no meaning: it is none by the layouts, or one that the sender can't process.
#[derive(Clone, Copy)]
pub enum ReadError {
    Malformed,
    CantProcess,
}

// ---- Configuration and request

// What is known of a remote entity: an entry of the table.
// Stays: the checksum type is a number, since a put is given any byte and refuses it (BadConfig).
#[derive(Clone, Copy)]
pub struct RemoteEntityConfig {
    pub id: EntityId,
    pub maxpacket: u64,
    pub maxsegment: u64,
    pub checksum: u8,
    pub crc: bool,
    pub unacknowledged: bool,
    pub closure: bool,
    pub limit: u8,
}

// Our own: the id, the fault action of each of sixteen conditions, the flags of two events, and the table, of which the first
// `count` entries are looked at.
// Stays: eight places and a count, no heap, as `find_in` (rules, Put) looks through them; the actions are numbers, since a put is given any byte and refuses it (BadConfig).
#[derive(Clone, Copy)]
pub struct LocalEntityConfig {
    pub id: EntityId,
    pub actions: [u8; 16],
    pub eofsent: bool,
    pub finished: bool,
    pub remotes: [RemoteEntityConfig; 8],
    pub count: usize,
}

// Mode and closure are the put's own word, or, where it has none, the entry's.
#[derive(Clone, Copy)]
pub struct PutRequest {
    pub destination: EntityId,
    pub unacknowledged: Option<bool>,
    pub closure: Option<bool>,
}

// ---- State

#[derive(Clone, Copy)]
pub enum TransactionStep {
    Idle = 0,
    SendingMetadata = 1,
    SendingFileData = 2,
    SendingEof = 3,
    WaitingForEofAck = 4,
    WaitingForFinished = 5,
    Closing = 6,
}

// What a put fixes; `segment` is L and `size` is S.
// Stays: the checksum type and the actions are numbers, since a handler's memory may hold any byte here.
#[derive(Clone, Copy)]
pub struct Fixed {
    pub head: Head,
    pub closure: bool,
    pub checksum: u8,
    pub segment: u64,
    pub size: u64,
    pub limit: u8,
    pub actions: [u8; 16],
    pub eofsent: bool,
    pub finished: bool,
}

// Both names, copied; zeros behind.
// Stays: bytes and a length, as C has them; no heap.
#[repr(C)]
#[derive(Clone, Copy)]
pub struct Names {
    pub source: [u8; 255],
    pub sourcelen: u8,
    pub destination: [u8; 255],
    pub destinationlen: u8,
}

// What an EOF says.
// Stays: the condition is a number, as document 01 and 727 have it.
#[repr(C)]
#[derive(Clone, Copy)]
pub struct Eof {
    pub condition: u8,
    pub sum: u32,
    pub size: u64,
}

// First-pass bytes sent: how many, and their checksum, the number that an EOF carries for them.
#[repr(C)]
#[derive(Clone, Copy)]
pub struct FileParams {
    pub progress: u64,
    pub sum: u32,
}

// Pending requests, the oldest first; the places from `count` on are zero.
// Stays: 64 places and a count, as C has them; no heap.
#[repr(C)]
#[derive(Clone, Copy)]
pub struct Queue {
    pub places: [SegmentRequest; 64],
    pub count: usize,
}

// The cancel mark, whether its EOF is still owed, its condition; the expiry count; the Finished PDU's values; the Rust's anomaly count.
// Stays: the condition is a number, which a user's cancel and document 01 give; each flag is one of the definitions' own (`marked`, `no_marks`).
#[derive(Clone, Copy)]
pub struct Marks {
    pub cancelled: bool,
    pub owed: bool,
    pub condition: u8,
    pub count: u8,
    pub finished: FinishedParams,
    pub anomalies: u8,
}

// `number` is the next put's.
#[derive(Clone, Copy)]
pub struct State {
    pub number: TransactionSeqNum,
    pub step: TransactionStep,
    pub fixed: Fixed,
    pub names: Names,
    pub file: FileParams,
    pub queue: Queue,
    pub marks: Marks,
}

// ---- The table of steps

// A row of the table: the answer to each kind of PDU.
#[derive(Clone, Copy)]
pub enum Verdict {
    Enqueue,
    Move,
    Refuse,
    NoEffect,
}

#[derive(Clone, Copy)]
pub struct Row {
    pub nak: Verdict,
    pub ack: Verdict,
    pub finished: Verdict,
    pub keepalive: Verdict,
}

// ---- A step

// What a step does: one case for each numbered item of document 01, the faults of items 6 and 7 by their action, with the condition.
// Stays: a fault's condition is document 01's number (`fault_due`).
#[derive(Clone, Copy)]
pub enum Due {
    CancelEof,
    Repair,
    Metadata,
    Data,
    NoErrorEof,
    EofAgain,
    FaultCancel(u8),
    FaultIgnore(u8),
    FaultAbandon(u8),
    Close,
    Nothing,
}

// The PDU that it emits.
#[derive(Clone, Copy)]
pub enum Sending {
    Nothing,
    Metadata,
    FileData { offset: u64, length: u64 },
    Eof(Eof),
    AckFinished(u8),
}

// ---- Events: each at most once in a step, in this order

#[derive(Clone, Copy)]
pub struct TransactionId(pub EntityId, pub TransactionSeqNum);

// Stays: action and condition are document 01's numbers, which C and `Told` (rules, Events) have.
#[derive(Clone, Copy)]
pub struct Fault {
    pub action: u8,
    pub condition: u8,
    pub progress: u64,
}

#[derive(Clone, Copy)]
pub enum Timer {
    Ack = 1,
    Check = 2,
}

#[derive(Clone, Copy)]
pub struct Events {
    pub id: TransactionId,
    pub transaction: bool,
    pub eofsent: bool,
    pub fault: Option<Fault>,
    pub finished: Option<FinishedParams>,
    pub timer: Option<Timer>,
}

// ---- Answers

#[derive(Clone, Copy)]
pub enum Refusal {
    AlreadyBusy = 1,
    BadIdWidth = 2,
    NoRemoteCfgFound = 3,
    BadConfig = 4,
    BadNameLength = 5,
    SourceFileNotValidUtf8 = 6,
    DestFileNotValidUtf8 = 7,
    PacketLimit = 8,
    Malformed = 20,
    CantProcessPacketType = 21,
    UnexpectedPdu = 22,
    OtherTransaction = 23,
    InvalidNakPdu = 24,
    RetransmitFull = 25,
    FileChanged = 30,
    OutTooSmall = 31,
    BurstTooLong = 32,
}

// Of a delivery: how many of the delivered bytes are the PDU's, on a refusal too (0: Malformed).
// Stays: an answer beside a number, which a refusal has too (`deliver_length`).
#[derive(Clone, Copy)]
pub struct Delivery {
    pub answer: Result<(), Refusal>,
    pub length: usize,
}

// What a step made: how many bytes of the out buffer are its PDU (0: none), and its events.
#[derive(Clone, Copy)]
pub struct Made {
    pub length: usize,
    pub events: Events,
}

// What a burst made: how many steps, and what each of them made; the places behind are blank.
// Stays: a count beside sixteen places, since no heap is there.
#[derive(Clone, Copy)]
pub struct Burst {
    pub count: usize,
    pub steps: [Made; 16],
}
