// What a step comes to. Its PDU, if one is due, already stands in front of the out buffer; the state is not changed yet: a caller who holds it elsewhere has no
// more to change than what the outcome says.
// After cfdp-rs 0.3.0, src/source.rs (Apache-2.0); changed, see NOTICE.
ghost use Rattle.std.specs.Prelude.{◌≡◌, length, IfOk};
ghost use Rattle.basis.specs.Laid.{in_front};
ghost use Rattle.rules.specs.Step.{changed, sending_of, bytes_for, performed, step_outcome, step_bytes};
ghost use Rattle.source_step.specs.Once.{Countable};
ghost use Rattle.source_step.specs.Outcomes.{stepped_by};

use types::{Due, Refusal, State};

// Of a step that is not refused: what was due, the checksum of the first-pass bytes behind it, and how many bytes of the out buffer are the PDU.
#[derive(Clone, Copy)]
pub struct Outcome {
    pub due: Due,
    pub sum: u32,
    pub length: usize,
}

// FileChanged: not Idle, and the lent length is not S.
#[tactic(auto, unfolding(rules::specs::Step::changed))]
fn changed(s: &State, lent: usize) -> bool
    ensures { result ≡ changed s.now lent }
{
    !source_state::is_idle(s.step) && lent as u64 != s.fixed.size
}

// The PDU due is emitted, or refused as OutTooSmall with nothing written and nothing summed.
fn made(s: &State, file: &[u8], d: Due, out: &mut [u8]) -> Result<Outcome, Refusal>
    requires { Countable s.now d }
    ensures value { stepped_by s.now result ≡ performed s.now file.now d (length out.old) }
    ensures countable { IfOk result (λ o. Countable s.now o.due) }
    ensures out_after { out.new ≡ in_front (bytes_for s.now file.now (sending_of s.now d)) out.old }
{
    let p = source_due::sending::sending_of(s, d);
    match source_due::emit::emit(s, file, p, out) {
        None => Err(Refusal::OutTooSmall),
        Some(length) => {
            let sum = crate::after::sum_after(s, file, d);
            Ok(Outcome {
                due: d,
                sum,
                length,
            })
        }
    }
}

pub fn outcome_of(s: &State, file: &[u8], expired: bool, out: &mut [u8]) -> Result<Outcome, Refusal>
    ensures value { stepped_by s.now result ≡ step_outcome s.now file.now expired (length out.old) }
    ensures countable { IfOk result (λ o. Countable s.now o.due) }
    ensures out_after { out.new ≡ step_bytes s.now file.now expired out.old }
{
    if changed(s, file.len()) {
        return Err(Refusal::FileChanged);
    }
    made(s, file, source_due::due::due_of(s, expired), out)
}
