// The sending handler for C: one handler in memory that the host lends. Each function takes the state out of the memory, makes the call on it, and
// stores what comes of it; a refusal stores nothing. A step and a delivery store no more than what they change (modules `step`, `deliver`); a burst makes its steps on the memory, some of them
// in place (modules `burst`, `piece`); what lies between memory and values is in `taken`, `stored`, `answer` and `events`. Every bit pattern of the memory is a handler, so nothing is asked of the host but the pointers.
#![tactic(auto)]

mod answer;
mod burst;
mod deliver;
mod events;
mod piece;
mod step;
mod stored;
mod taken;

ghost use Rattle.std.specs.Prelude.{◌≡◌};
ghost use Rattle.seam_rules.specs.Seam.{new_done, put_done, deliver_done, step_done, step_out, burst_done, burst_out, cancel_done, reset_done};

use crate::answer::{store_accepted, store_word};
use crate::deliver::{store_effect, told};
use crate::events::no_report;
use crate::step::store_outcome;
use crate::stored::store;
use crate::taken::{config_of, flag_of, request_of, state_of};
use seam_rules::memory::{BurstReport, DeliverReport, Handler};
use source_deliver::arrival_of;
use source_step::outcome::outcome_of;
use types::{EntityId, TransactionSeqNum};

// Stays: the parameters of these functions, and of those of module `burst`, are C's.

// A handler whose first put takes this number of `width` bytes; the configuration stays. Returns 0.
#[unsafe(no_mangle)]
#[tactic(auto, unfolding(seam_rules::specs::Seam::new_done))]
pub extern "C" fn tsendrivaty_new(state: &mut Handler, width: u8, number: u64) -> u32
    ensures { (state.new ≡ (new_done state.old width number).held) × (result ≡ (new_done state.old width number).code) }
{
    store(
        state,
        &source::new(TransactionSeqNum(width, number)),
        no_report(),
    );
    0
}

// Puts a file of `size` bytes to the entity with this id of `width` bytes, under its name here (`source`) and there (`destination`). `unacknowledged` and `closure`:
// 0 no, 1 yes, any other as the table's entry says. Returns 0 or the refusal's number.
#[unsafe(no_mangle)]
#[tactic(auto, unfolding(seam_rules::specs::Seam::put_done))]
pub extern "C" fn tsendrivaty_put(
    state: &mut Handler,
    width: u8,
    entity: u64,
    unacknowledged: u8,
    closure: u8,
    source: &[u8],
    destination: &[u8],
    size: u64,
) -> u32
    ensures { (state.new ≡ (put_done state.old width entity unacknowledged closure source.now destination.now size).held)
        × (result ≡ (put_done state.old width entity unacknowledged closure source.now destination.now size).code) }
{
    let mut s = state_of(state);
    let c = config_of(&state.config);
    let q = request_of(width, entity, unacknowledged, closure);
    let a = source::put(&mut s, c, q, source, destination, size);
    store_accepted(state, &s, a)
}

// Takes a PDU from the link, with or without fill behind it. `report` says how many of the bytes are the PDU's, on a refusal too, and 0 if the delivery is Malformed. Returns 0 or the
// refusal's number.
#[unsafe(no_mangle)]
#[tactic(auto, unfolding(seam_rules::specs::Seam::deliver_done))]
pub extern "C" fn tsendrivaty_deliver(
    state: &mut Handler,
    bytes: &[u8],
    report: &mut DeliverReport,
) -> u32
    ensures { (state.new ≡ (deliver_done state.old bytes.now).held)
        × (report.new ≡ (deliver_done state.old bytes.now).report)
        × (result ≡ (deliver_done state.old bytes.now).code) }
{
    let s = state_of(state);
    let a = arrival_of(&s, bytes);
    let r = told(&a);
    let code = store_effect(state, &s, bytes, a.effect);
    *report = r;
    code
}

// One step over the lent file; `expired` not 0: the timer has expired. The PDU stands in front of `out`, and the report says its length and the events.
// Returns 0 or the refusal's number.
#[unsafe(no_mangle)]
#[tactic(auto, unfolding(seam_rules::specs::Seam::step_done, seam_rules::specs::Seam::step_out))]
pub extern "C" fn tsendrivaty_step(
    state: &mut Handler,
    file: &[u8],
    expired: u8,
    out: &mut [u8],
) -> u32
    ensures { (state.new ≡ (step_done state.old file.now expired out.old).held)
        × (result ≡ (step_done state.old file.now expired out.old).code)
        × (out.new ≡ step_out state.old file.now expired out.old) }
{
    let s = state_of(state);
    let o = outcome_of(&s, file, flag_of(expired), out);
    store_outcome(state, &s, o)
}

// Up to `count` steps over the lent file, at most 16: the first with `expired`, the others without. The PDUs stand end to end in front of `out`, and `report` says how many steps were
// made, and of each its length and its events. Returns 0 or the refusal's number.
#[unsafe(no_mangle)]
pub extern "C" fn tsendrivaty_burst(
    state: &mut Handler,
    file: &[u8],
    expired: u8,
    count: usize,
    out: &mut [u8],
    report: &mut BurstReport,
) -> u32
    ensures { (state.new ≡ (burst_done state.old report.old file.now expired count out.old).held)
        × (report.new ≡ (burst_done state.old report.old file.now expired count out.old).report)
        × (result ≡ (burst_done state.old report.old file.now expired count out.old).code)
        × (out.new ≡ burst_out state.old file.now expired count out.old) }
{
    burst::burst(state, file, expired, count, out, report)
}

// The user's cancel of a transaction. Returns 1 for yes, 0 for no.
#[unsafe(no_mangle)]
#[tactic(auto, unfolding(seam_rules::specs::Seam::cancel_done))]
pub extern "C" fn tsendrivaty_cancel(
    state: &mut Handler,
    sourcewidth: u8,
    source: u64,
    numberwidth: u8,
    number: u64,
) -> u32
    ensures { (state.new ≡ (cancel_done state.old sourcewidth source numberwidth number).held)
        × (result ≡ (cancel_done state.old sourcewidth source numberwidth number).code) }
{
    let mut s = state_of(state);
    let yes = source::cancel(
        &mut s,
        EntityId(sourcewidth, source),
        TransactionSeqNum(numberwidth, number),
    );
    store_word(state, &s, yes)
}

// Idle at once; the next put's number and the configuration stay. Returns 0.
#[unsafe(no_mangle)]
#[tactic(auto, unfolding(seam_rules::specs::Seam::reset_done))]
pub extern "C" fn tsendrivaty_reset(state: &mut Handler) -> u32
    ensures { (state.new ≡ (reset_done state.old).held) × (result ≡ (reset_done state.old).code) }
{
    let mut s = state_of(state);
    source::reset(&mut s);
    store(state, &s, no_report());
    0
}
