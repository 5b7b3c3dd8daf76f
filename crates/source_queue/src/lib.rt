// Pending requests: 64 places, the oldest in front. Served places are free again. What a NAK adds is in module `nak`.
// After cfdp-rs 0.3.0, src/source.rs (Apache-2.0); changed, see NOTICE.
#![tactic(auto)]

pub mod nak;

ghost use Rattle.std.specs.Prelude.{◌≡◌, ◌-◌};
ghost use Rattle.rules.specs.Queues.{is_metadata, owes, invalid, free, oldest, pop, piece, served};

use types::{Queue, SegmentRequest};

// ---- one request

// (0, 0) owes the metadata PDU.
#[tactic(auto, unfolding(rules::specs::Queues::is_metadata))]
pub fn is_metadata(p: SegmentRequest) -> bool
    ensures { result ≡ is_metadata p }
{
    p.start == 0 && p.end == 0
}

// start = end otherwise owes nothing.
#[tactic(auto, unfolding(rules::specs::Queues::owes))]
pub fn owes(p: SegmentRequest) -> bool
    ensures { result ≡ owes p }
{
    is_metadata(p) || p.start < p.end
}

// What makes a NAK InvalidNakPdu.
#[tactic(auto, unfolding(rules::specs::Queues::invalid))]
pub fn invalid(progress: u64, p: SegmentRequest) -> bool
    ensures { result ≡ invalid progress p }
{
    p.end < p.start || progress < p.end
}

// The bytes that a request still owes.
fn left(p: SegmentRequest) -> u64
    ensures { result ≡ p.end - p.start }
{
    p.end.saturating_sub(p.start)
}

// The bytes of its next piece: L, or the last rest.
pub fn piece(l: u64, p: SegmentRequest) -> u64
    ensures { result ≡ piece l p }
{
    l.min(left(p))
}

// ---- the queue

// Stays: 64 places with their number beside them, as C's struct `Queue` has them; no heap.

#[tactic(auto, unfolding(rules::specs::Queues::free))]
pub fn free(q: Queue) -> usize
    ensures { result ≡ free q }
{
    64usize.saturating_sub(q.count)
}

#[tactic(auto, unfolding(rules::specs::Queues::oldest))]
pub fn oldest(q: Queue) -> SegmentRequest
    ensures { result ≡ oldest q }
{
    q.places[0]
}

// Without the oldest: each place takes what stood behind it, and the last one is blank.
#[tactic(auto, using(crate::proofs::Places::last_blank), unfolding(rules::specs::Queues::pop))]
fn pop(q: Queue) -> Queue
    ensures { result ≡ pop q }
{
    let mut u = q;
    u.places.rotate_left(1);
    u.places[63] = SegmentRequest { start: 0, end: 0 };
    u.count = u.count.saturating_sub(1);
    u
}

// After one PDU of the oldest: its place is free, or holds its rest.
#[tactic(auto, unfolding(rules::specs::Queues::served, rules::specs::Queues::oldest))]
pub fn served(l: u64, q: Queue) -> Queue
    ensures { result ≡ served l q }
{
    let p = oldest(q);
    if left(p) <= l {
        return pop(q);
    }
    let mut u = q;
    u.places[0].start = p.start + l;
    u
}
