// A NAK is taken whole or refused whole. Its requests are read from the delivered bytes, once to judge them and once to take them; nothing is copied.
// After cfdp-rs 0.3.0, src/source.rs (Apache-2.0); changed, see NOTICE.
ghost use Rattle.std.specs.Prelude.{◌≡◌};
ghost use Rattle.rules_pdu.specs.Reading.{requests_from};
ghost use Rattle.rules.specs.Deliver.{requests_in};
ghost use Rattle.source_deliver.specs.Asked.{takes_nak};
ghost use Rattle.source_deliver.specs.Ways.{nak_done};
ghost use Rattle.source_deliver.specs.Effects.{done_by};

use crate::effect::Effect;
use source_queue::free;
use source_queue::nak::{first_pair, judge};
use types::{Frame, Refusal, State};

// Not in unacknowledged mode, not after cancellation.
#[tactic(auto, unfolding(crate::specs::Asked::takes_nak))]
fn takes_nak(s: &State) -> bool
    ensures { result ≡ takes_nak s.now }
{
    !s.fixed.head.unacknowledged && !s.marks.cancelled
}

// n requests, from a place on.
#[tactic(auto, unfolding(crate::specs::Ways::nak_done))]
fn handle_retransmission(
    s: &State,
    bytes: &[u8],
    large: bool,
    at: usize,
    n: usize,
) -> Result<Effect, Refusal>
    ensures { done_by s.now bytes.now result ≡ nak_done s.now (requests_from n large bytes.now at) }
{
    if !takes_nak(s) {
        return Err(Refusal::UnexpectedPdu);
    }
    let j = judge(bytes, large, at, n, s.file.progress);
    if j.invalid {
        return Err(Refusal::InvalidNakPdu);
    }
    if j.owing > free(s.queue) {
        return Err(Refusal::RetransmitFull);
    }
    Ok(Effect::Enqueue { large, at, n })
}

pub(crate) fn handle_nak_pdu(s: &State, bytes: &[u8], f: Frame, n: usize) -> Result<Effect, Refusal>
    ensures { done_by s.now bytes.now result ≡ nak_done s.now (requests_in bytes.now f n) }
{
    let at = first_pair(bytes.len(), f.head.large, f.start);
    handle_retransmission(s, bytes, f.head.large, at, n)
}
