// Put: refusals 1 to 8 in checking order, or the state anew. Any state, configuration and request is taken; a refusal changes nothing.
// After cfdp-rs 0.3.0, src/source.rs (Apache-2.0); changed, see NOTICE.
#![tactic(auto)]

mod config;
mod names;
mod numbers;
mod start;

ghost use Rattle.std.specs.Prelude.{◌≡◌};
ghost use Rattle.rules.specs.Put.{put_answer, put_state};
ghost use Rattle.rules.specs.Calls.{PutMeets};
ghost use Rattle.source_put.specs.Entry.{begun};

use crate::config::{entry_found, ids_fit};
use crate::names::names_of;
use crate::start::{Asked, started};
use types::{LocalEntityConfig, PutRequest, Refusal, State};

// The state that an accepted put makes; or its refusal, of 1 to 8 in checking order.
#[tactic(auto, using(crate::proofs::Accepted::ids_width, crate::proofs::Accepted::by_entry), unfolding(rules::specs::Put::put_state))]
fn begun(s: &State, q: &Asked<'_>) -> Result<State, Refusal>
    ensures { result ≡ begun (put_state s.now q.now.local q.now.request q.now.source.now q.now.destination.now q.now.size) (put_answer s.now q.now.local q.now.request q.now.source.now q.now.destination.now q.now.size) }
{
    if !source_state::is_idle(s.step) {
        return Err(Refusal::AlreadyBusy);
    }
    if !ids_fit(q.local.id, q.request.destination, s.number) {
        return Err(Refusal::BadIdWidth);
    }
    let e = entry_found(q.local, q.request.destination.1).ok_or(Refusal::NoRemoteCfgFound)?;
    let h = q.head(e, s.number);
    q.entry_answer(e, h)?;
    Ok(started(s.number, q.fixed(e, h), names_of(q.source, q.destination)))
}

// A put of a file of `size` bytes, of which no byte is read.
#[tactic(auto, unfolding(rules::specs::Put::put_outcome))]
pub fn put(
    s: &mut State,
    c: LocalEntityConfig,
    q: PutRequest,
    source: &[u8],
    destination: &[u8],
    size: u64,
) -> Result<(), Refusal>
    ensures { PutMeets s.old c q source.now destination.now size (record { answer = result; state = s.new }) }
{
    let asked = Asked {
        local: c,
        request: q,
        source,
        destination,
        size,
    };
    *s = begun(s, &asked)?;
    Ok(())
}
