// A burst: up to sixteen steps in one call, the PDU of each behind the one before.
ghost use Rattle.std.specs.Prelude.{◌≡◌, false, ◌++◌, ◌+◌, ◌-◌, ◌*◌, ◌^◌, ◌<◌, ◌≤◌, length, take, drop};
ghost use Rattle.rules.specs.Step.{step_outcome, step_bytes};
ghost use Rattle.rules.specs.Burst.{none_made, laid_of};
ghost use Rattle.rules.specs.Calls.{stepped_as, bursted_as};
ghost use Rattle.source_step.specs.Bursting.{no_steps, with_made, left_of, begun_with, moved, taken_by, so_far, burst_on};

use crate::step;
use types::{Burst, EntityId, Events, Made, Refusal, State, TransactionId, TransactionSeqNum};

// How far a burst is: what it has made, how many bytes of the out buffer that took, and how many steps may follow.
#[derive(Clone, Copy)]
pub struct Going {
    pub burst: Burst,
    pub at: usize,
    pub left: usize,
}

// A place without a step.
fn none_made() -> Made
    ensures { result ≡ none_made }
{
    Made {
        length: 0,
        events: Events {
            id: TransactionId(EntityId(0, 0), TransactionSeqNum(0, 0)),
            transaction: false,
            eofsent: false,
            fault: None,
            finished: None,
            timer: None,
        },
    }
}

pub(crate) fn no_steps() -> Burst
    ensures { result ≡ no_steps }
{
    Burst {
        count: 0,
        steps: [none_made(); 16],
    }
}

// Stays: that sixteen places suffice is asked of another value here, in `moved` and in `gone_on`; an invariant of `Going` could not say it of a Burst, which is told apart from it.
fn with_made(b: Burst, m: Made) -> Burst
    requires { b.count < 16 }
    ensures { result ≡ with_made b m }
{
    let mut u = b;
    u.steps[b.count] = m;
    u.count += 1;
    u
}

// A step that emitted nothing is the last.
fn left_of(left: usize, n: usize) -> usize
    requires { 0 < left }
    ensures { result ≡ left_of left n }
{
    if n == 0 { 0 } else { left - 1 }
}

// Behind the first step.
pub(crate) fn begun(first: Made, count: usize) -> Going
    requires { 0 < count }
    ensures { result ≡ begun_with first count }
{
    Going {
        burst: with_made(no_steps(), first),
        at: first.length,
        left: left_of(count, first.length),
    }
}

// One that is refused is not made, and ends the burst.
fn moved(g: Going, r: Result<Made, Refusal>) -> Going
    requires { (0 < g.left) × (g.burst.count < 16) × (g.at + taken_by r < 2 ^ 64) }
    ensures { result ≡ moved g r }
{
    match r {
        Ok(m) => Going {
            burst: with_made(g.burst, m),
            at: g.at + m.length,
            left: left_of(g.left, m.length),
        },
        Err(_) => Going { left: 0, ..g },
    }
}

// The next step has the rest of the buffer.
// Stays: the place beside the buffer, of which the contract says the whole.
fn next_step(s: &mut State, file: &[u8], out: &mut [u8], at: usize) -> Result<Made, Refusal>
    requires { at ≤ length out.old }
    ensures value { stepped_as s.old result s.new ≡ step_outcome s.old file.now false (length out.old - at) }
    ensures out_after { out.new ≡ take at out.old ++ step_bytes s.old file.now false (drop at out.old) }
{
    step(s, file, false, &mut out[at..])
}

pub(crate) fn gone_on(s: &mut State, g: Going, file: &[u8], out: &mut [u8]) -> Burst
    requires { (g.at ≤ length out.old) × (g.burst.count + g.left ≤ 16) }
    ensures value { so_far result s.new ≡ burst_on g.left (so_far g.burst s.old) file.now (length out.old - g.at) }
    ensures out_after { out.new ≡ take g.at out.old ++ laid_of g.left s.old file.now false (drop g.at out.old) }
{
    let mut h = g;
    // Stays: a while, since what is left is no index: a step that emits nothing ends it.
    while 0 < h.left {
        let r = next_step(s, file, out, h.at);
        h = moved(h, r);
    }
    h.burst
}
