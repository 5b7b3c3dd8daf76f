// The requests of a NAK, read from the delivered bytes one pair after another: once to be judged, once to be stored behind the queue. A pair past the end is (0, 0) wherever it stands, so a
// place that would lie behind the end stays at it.
// After cfdp-rs 0.3.0, src/source.rs (Apache-2.0); changed, see NOTICE.
ghost use Rattle.std.specs.Prelude.{◌≡◌, ◌+◌, min};
ghost use Rattle.rules_pdu.specs.Numbers.{F};
ghost use Rattle.rules.specs.Queues.{any_invalid, owing, push_all};
ghost use Rattle.rules_pdu.specs.Reading.{requests_from};

use crate::{invalid, owes};
use pdu_read::field::size_width;
use pdu_read::nak::NakPduReader;
use types::Queue;

// Where the first pair of a body stands: behind the code and the scope, which is as long as a pair; or the end.
pub fn first_pair(n: usize, large: bool, start: usize) -> usize
    ensures { result ≡ min (start + 1 + F large + F large) n }
{
    start.saturating_add(1 + 2 * size_width(large)).min(n)
}

// Stays: `judge` and `push_all` take the parts of a reader and make it, as their contracts name them (`requests_from n large bytes at`).

// What one pass over the requests finds.
// Stays: a flag and a number, since `judge` promises the number where a request is invalid too.
#[derive(Clone, Copy)]
pub struct Judged {
    // one of them is invalid
    pub invalid: bool,
    // so many of them owe a PDU
    pub owing: usize,
}

// The n requests from a place on, read once.
#[tactic(auto, using(crate::proofs::Requests::most, crate::proofs::Requests::so_many), unfolding(rules::specs::Queues::any_invalid, rules::specs::Queues::owing))]
pub fn judge(bytes: &[u8], large: bool, at: usize, n: usize, progress: u64) -> Judged
    ensures { (result.invalid ≡ any_invalid progress (requests_from n large bytes.now at)) × (result.owing ≡ owing (requests_from n large bytes.now at)) }
{
    let requests = NakPduReader {
        pdu: bytes,
        large,
        at,
        left: n,
    };
    let mut bad = false;
    let mut owing = 0;
    for p in requests {
        bad = bad || invalid(progress, p);
        owing += usize::from(owes(p));
    }
    Judged {
        invalid: bad,
        owing,
    }
}

// Those that owe a PDU, behind the queue in their order, as long as places are free. One store for each: the queue is not copied.
#[tactic(auto, unfolding(rules::specs::Queues::push_all, rules::specs::Queues::push_owed, rules::specs::Queues::push))]
pub fn push_all(q: Queue, bytes: &[u8], large: bool, at: usize, n: usize) -> Queue
    ensures { result ≡ push_all q (requests_from n large bytes.now at) }
{
    let requests = NakPduReader {
        pdu: bytes,
        large,
        at,
        left: n,
    };
    let mut u = q;
    for p in requests {
        if owes(p) && u.count < 64 {
            u.places[u.count] = p;
            u.count += 1;
        }
    }
    u
}
