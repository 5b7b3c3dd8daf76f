// The state and the configuration taken out of the memory, group by group, and a put's request out of its numbers.
ghost use Rattle.std.specs.Prelude.{◌≡◌, map};
ghost use Rattle.seam_rules.specs.Memory.{flag_of, remote_of, config_of, step_of, head_taken, fixed_taken, marks_taken, state_of, choice_of, request_of};

// Stays: plain functions between the types of two other crates: an impl of From can stand in neither's place here.
use seam_rules::memory::{Config, Handler, HeldMarks, Remote, Transaction};
use types::{
    EntityId, Fixed, Head, LocalEntityConfig, Marks, PutRequest, RemoteEntityConfig, State,
    TransactionStep,
};

#[tactic(auto, using(std::proofs::lemmas::Bool::Decides::nat_tests), unfolding(seam_rules::specs::Memory::flag_of))]
pub fn flag_of(x: u8) -> bool
    ensures { result ≡ flag_of x }
{
    x != 0
}

#[tactic(auto, unfolding(seam_rules::specs::Memory::remote_of))]
fn remote_of(r: Remote) -> RemoteEntityConfig
    ensures { result ≡ remote_of r }
{
    RemoteEntityConfig {
        id: r.id,
        maxpacket: r.maxpacket,
        maxsegment: r.maxsegment,
        checksum: r.checksum,
        crc: flag_of(r.crc),
        unacknowledged: flag_of(r.unacknowledged),
        closure: flag_of(r.closure),
        limit: r.limit,
    }
}

// Stays: of the array's own `map` the library says which calls it makes, and the proof that these give the definition's list did not close.
fn remotes_of(rs: &[Remote; 8]) -> [RemoteEntityConfig; 8]
    ensures { result ≡ map remote_of rs.now }
{
    [
        remote_of(rs[0]),
        remote_of(rs[1]),
        remote_of(rs[2]),
        remote_of(rs[3]),
        remote_of(rs[4]),
        remote_of(rs[5]),
        remote_of(rs[6]),
        remote_of(rs[7]),
    ]
}

#[tactic(auto, unfolding(seam_rules::specs::Memory::config_of))]
pub fn config_of(c: &Config) -> LocalEntityConfig
    ensures { result ≡ config_of c.now }
{
    LocalEntityConfig {
        id: c.id,
        actions: c.actions,
        eofsent: flag_of(c.eofsent),
        finished: flag_of(c.finished),
        remotes: remotes_of(&c.remotes),
        count: c.count,
    }
}

// Any number that is none of a step's is Idle.
#[tactic(auto, using(std::proofs::lemmas::Bool::Decides::nat_tests), unfolding(seam_rules::specs::Memory::step_of))]
fn step_of(n: u8) -> TransactionStep
    ensures { result ≡ step_of n }
{
    match n {
        1 => TransactionStep::SendingMetadata,
        2 => TransactionStep::SendingFileData,
        3 => TransactionStep::SendingEof,
        4 => TransactionStep::WaitingForEofAck,
        5 => TransactionStep::WaitingForFinished,
        6 => TransactionStep::Closing,
        _ => TransactionStep::Idle,
    }
}

#[tactic(auto, unfolding(seam_rules::specs::Memory::head_taken))]
pub fn head_taken(t: &Transaction) -> Head
    ensures { result ≡ head_taken t.now }
{
    Head {
        unacknowledged: flag_of(t.unacknowledged),
        crc: flag_of(t.crc),
        large: flag_of(t.large),
        source: t.source,
        number: t.number,
        destination: t.destination,
    }
}

#[tactic(auto, unfolding(seam_rules::specs::Memory::fixed_taken))]
fn fixed_taken(t: &Transaction) -> Fixed
    ensures { result ≡ fixed_taken t.now }
{
    Fixed {
        head: head_taken(t),
        closure: flag_of(t.closure),
        checksum: t.checksum,
        segment: t.segment,
        size: t.size,
        limit: t.limit,
        actions: t.actions,
        eofsent: flag_of(t.eofsent),
        finished: flag_of(t.finished),
    }
}

#[tactic(auto, unfolding(seam_rules::specs::Memory::marks_taken))]
fn marks_taken(m: &HeldMarks) -> Marks
    ensures { result ≡ marks_taken m.now }
{
    Marks {
        cancelled: flag_of(m.cancelled),
        owed: flag_of(m.owed),
        condition: m.condition,
        count: m.count,
        finished: m.finished,
        anomalies: m.anomalies,
    }
}

#[tactic(auto, unfolding(seam_rules::specs::Memory::state_of))]
pub fn state_of(h: &Handler) -> State
    ensures { result ≡ state_of h.now }
{
    State {
        number: h.number,
        step: step_of(h.step),
        fixed: fixed_taken(&h.transaction),
        names: h.names,
        file: h.file,
        queue: h.queue,
        marks: marks_taken(&h.marks),
    }
}

// 0: no; 1: yes; any other: as the table's entry says.
#[tactic(auto, using(std::proofs::lemmas::Bool::Decides::nat_tests), unfolding(seam_rules::specs::Memory::choice_of))]
fn choice_of(x: u8) -> Option<bool>
    ensures { result ≡ choice_of x }
{
    match x {
        0 => Some(false),
        1 => Some(true),
        _ => None,
    }
}

pub fn request_of(width: u8, entity: u64, unacknowledged: u8, closure: u8) -> PutRequest
    ensures { result ≡ request_of width entity unacknowledged closure }
{
    PutRequest {
        destination: EntityId(width, entity),
        unacknowledged: choice_of(unacknowledged),
        closure: choice_of(closure),
    }
}
