// A delivery: what the bytes say, then what the table of steps answers. Any state and any bytes are taken. The refusals are tried in
// the order 20, 21, 23, 22, 24, 25, and a refused delivery changes nothing; refused or not, it is told how many of the bytes are the PDU's.
// After cfdp-rs 0.3.0, src/source.rs (Apache-2.0); changed, see NOTICE.
#![tactic(auto)]

pub mod effect;
mod nak;
mod table;

ghost use Rattle.std.specs.Prelude.{◌≡◌};
ghost use Rattle.rules.specs.Deliver.{same_transaction, deliver_outcome};
ghost use Rattle.rules.specs.Calls.{DeliverMeets};
ghost use Rattle.source_deliver.specs.Asked.{asked_count, is_other};
ghost use Rattle.source_deliver.specs.Ways.{verdict_done, heard_done, body_delivered};
ghost use Rattle.source_deliver.specs.Effects.{no_pdu, done_by, delivered_by, move_of};

use crate::effect::{Arrival, Effect, delivered_by};
use crate::nak::handle_nak_pdu;
use crate::table::verdict_of;
use pdu_read::directive::read_body;
use pdu_read::header::read_header;
use types::{Delivery, Frame, Head, Meaning, ReadError, Refusal, State, Verdict};

// ---- the table at work

// How many requests a PDU makes: none if it is no NAK.
fn asked_count(m: Meaning) -> usize
    ensures { result ≡ asked_count m }
{
    match m {
        Meaning::Nak(n) => n,
        _ => 0,
    }
}

// An ACK of EOF and a Finished PDU alone move anything.
fn move_of(m: Meaning) -> Effect
    ensures { result ≡ move_of m }
{
    match m {
        Meaning::Finished(p) => Effect::Close(p),
        Meaning::AckOfEof => Effect::WaitForFinished,
        Meaning::Nak(_) | Meaning::KeepAlive(_) => Effect::NoEffect,
    }
}

// Stays: state, bytes and frame go on together to the functions below and to those of module `nak`; a struct of them would be taken apart in each contract, which says what each does.
fn by_verdict(s: &State, bytes: &[u8], f: Frame, m: Meaning, v: Verdict) -> Result<Effect, Refusal>
    ensures { done_by s.now bytes.now result ≡ verdict_done s.now bytes.now f m v }
{
    match v {
        Verdict::Enqueue => handle_nak_pdu(s, bytes, f, asked_count(m)),
        Verdict::Move => Ok(move_of(m)),
        Verdict::Refuse => Err(Refusal::UnexpectedPdu),
        Verdict::NoEffect => Ok(Effect::NoEffect),
    }
}

// ---- whose PDU it is

// Compared by value, whatever the widths.
#[tactic(auto, unfolding(rules::specs::Deliver::same_transaction))]
fn same_transaction(a: Head, b: Head) -> bool
    ensures { result ≡ same_transaction a b }
{
    a.source.1 == b.source.1 && a.number.1 == b.number.1 && a.destination.1 == b.destination.1
}

// Idle has no transaction to compare with.
#[tactic(auto, unfolding(crate::specs::Asked::is_other))]
fn is_other(s: &State, f: Frame) -> bool
    ensures { result ≡ is_other s.now f }
{
    !source_state::is_idle(s.step) && !same_transaction(s.fixed.head, f.head)
}

// 23, then what the table says: 22 among it.
fn heard(s: &State, bytes: &[u8], f: Frame, m: Meaning) -> Result<Effect, Refusal>
    ensures { done_by s.now bytes.now result ≡ heard_done s.now bytes.now f m }
{
    if is_other(s, f) {
        return Err(Refusal::OtherTransaction);
    }
    by_verdict(s, bytes, f, m, verdict_of(s.step, m))
}

// ---- what the bytes say

// Of what is no PDU no byte is one's.
fn malformed() -> Arrival
    ensures { result ≡ no_pdu }
{
    Arrival {
        effect: Err(Refusal::Malformed),
        length: 0,
    }
}

fn by_body(s: &State, bytes: &[u8], f: Frame, b: Result<Meaning, ReadError>) -> Arrival
    ensures { delivered_by s.now bytes.now result ≡ body_delivered s.now bytes.now f b }
{
    match b {
        Err(ReadError::Malformed) => malformed(),
        Err(ReadError::CantProcess) => Arrival {
            effect: Err(Refusal::CantProcessPacketType),
            length: f.length,
        },
        Ok(m) => Arrival {
            effect: heard(s, bytes, f, m),
            length: f.length,
        },
    }
}

// What a delivery comes to.
pub fn arrival_of(s: &State, bytes: &[u8]) -> Arrival
    ensures { delivered_by s.now bytes.now result ≡ deliver_outcome s.now bytes.now }
{
    match read_header(bytes) {
        None => malformed(),
        Some(f) => by_body(s, bytes, f, read_body(bytes, f)),
    }
}

pub fn deliver(s: &mut State, bytes: &[u8]) -> Delivery
    ensures { DeliverMeets s.old bytes.now (record { answer = result.answer; length = result.length; state = s.new }) }
{
    let a = arrival_of(s, bytes);
    delivered_by(s, bytes, a)
}
