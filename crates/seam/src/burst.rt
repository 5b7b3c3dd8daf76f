// A burst on the handler's memory: up to sixteen steps, one after the other. A step whose PDU is a piece of a request is made in place (module `piece`); any other is
// made by `tsendrivaty_step`, so that nothing that a step hands the state to has two callers: the compiler would then inline it in neither, and copy the state for each call.
ghost use Rattle.std.specs.Prelude.{◌≡◌, ◌≤◌, length, eqb, ltb};
ghost use Rattle.basis.specs.Pick.{pick};
ghost use Rattle.rules.specs.Burst.{allowed};
ghost use Rattle.rules.specs.Step.{step_outcome, step_bytes};
ghost use Rattle.seam_rules.specs.Memory.{flag_of, state_of};
ghost use Rattle.seam_rules.specs.Seam.{burst_done, burst_out};
ghost use Rattle.seam.specs.Running.{Turned, RanMeets, next_flag, settled, code_by};

use crate::piece::{is_piece, move_piece, put_piece};
use crate::stored::store;
use crate::taken::state_of;
use seam_rules::memory::{BurstReport, Handler, Report};
use types::Refusal;

// How many steps were made, and the code of the last one tried.
// Stays: the code is a number, which C is given.
#[derive(Clone, Copy)]
pub struct Ran {
    pub count: usize,
    pub code: u32,
}

// One step; refused, it leaves what was there. Its code.
fn turn(h: &mut Handler, file: &[u8], expired: u8, out: &mut [u8]) -> u32
    ensures turned { Turned h.old (step_outcome (state_of h.old) file.now (flag_of expired) (length out.old)) h.new result }
    ensures out_after { out.new ≡ step_bytes (state_of h.old) file.now (flag_of expired) out.old }
{
    if is_piece(h, file.len(), out.len()) {
        let n = put_piece(h, file, out);
        move_piece(h, file, n);
        return 0;
    }
    crate::tsendrivaty_step(h, file, expired, out)
}

// The expiry flag of a step: only the first has it.
#[tactic(auto, using(std::proofs::lemmas::Bool::Decides::nat_tests), unfolding(seam_rules::specs::Memory::flag_of))]
fn flag_for(k: usize, expired: u8) -> u8
    ensures { flag_of result ≡ next_flag k (flag_of expired) }
{
    if k == 0 { expired } else { 0 }
}

// At most `count` steps, the report of each in its place.
// Stays: a loop over the memory beside the one over the state (source_step, going): a data step of 100 bytes by a call takes 814 instructions, a piece made in place 275, and a burst may take 60 percent of its calls.
fn run(
    h: &mut Handler,
    steps: &mut [Report; 16],
    file: &[u8],
    expired: u8,
    count: usize,
    out: &mut [u8],
) -> Ran
    requires { count ≤ 16 }
    ensures { RanMeets h.old steps.old file.now (flag_of expired) count out.old out.new (record { held = h.new; steps = steps.new; count = result.count; code = result.code }) }
{
    let mut k = 0;
    let mut end = count;
    let mut at = 0;
    let mut code = 0;
    // Stays: a while, since the end moves: a `for` would have two breaks, and a count kept beside its index.
    while k < end {
        code = turn(h, file, flag_for(k, expired), &mut out[at..]);
        if code == 0 {
            steps[k] = h.report;
            at += h.report.length as usize;
            k += 1;
            if h.report.length == 0 {
                end = k;
            }
        } else {
            end = k;
        }
    }
    Ran { count: k, code }
}

// Every flag as a step stores it: a step made in place leaves the flags as they were. Of no steps the memory is what it was.
#[tactic(auto, using(std::proofs::lemmas::Bool::Decides::nat_tests), unfolding(crate::specs::Running::settled))]
fn settle(h: &mut Handler, made: usize)
    ensures { h.new ≡ pick (ltb 0 made) (settled h.old) h.old }
{
    if made > 0 {
        let s = state_of(h);
        store(h, &s, h.report);
    }
}

// A burst too long makes no step.
#[tactic(auto, unfolding(rules::specs::Burst::allowed))]
fn bounded(count: usize) -> usize
    ensures { (result ≡ allowed count) × (result ≤ 16) }
{
    if count > 16 { 0 } else { count }
}

// A refusal of the first step is the burst's; that of a later one only ends it.
#[tactic(auto, unfolding(crate::specs::Running::code_by))]
fn code_by(count: usize, made: usize, code: u32) -> u32
    ensures { result ≡ code_by count made code }
{
    match made {
        _ if count > 16 => Refusal::BurstTooLong as u32,
        0 => code,
        _ => 0,
    }
}

// How many steps the report tells; a refusal leaves the number that was there.
#[tactic(auto, using(std::proofs::lemmas::Bool::Decides::nat_tests))]
fn told_by(code: u32, made: usize, before: u64) -> u64
    ensures { result ≡ pick (eqb code 0) made before }
{
    if code == 0 { made as u64 } else { before }
}

// A refusal leaves the memory and the number in the report as they were; so does a burst of no steps with the memory.
pub(crate) fn burst(
    h: &mut Handler,
    file: &[u8],
    expired: u8,
    count: usize,
    out: &mut [u8],
    r: &mut BurstReport,
) -> u32
    ensures done { (record { code = result; held = h.new; report = r.new }) ≡ burst_done h.old r.old file.now expired count out.old }
    ensures out_after { out.new ≡ burst_out h.old file.now expired count out.old }
{
    let m = run(h, &mut r.steps, file, expired, bounded(count), out);
    settle(h, m.count);
    let code = code_by(count, m.count, m.code);
    r.count = told_by(code, m.count, r.count);
    code
}
