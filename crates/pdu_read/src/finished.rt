// 5 Finished: condition 4, spare 1, delivery 1, file status 2; then TLVs of type 1 or 6, each length closing inside the body.
ghost use Rattle.std.specs.Prelude.{◌≡◌, drop};
ghost use Rattle.rules_pdu.specs.Reading.{value_of, tlv_next, closed, are_tlvs, finished_params, finished_in};
ghost use Rattle.pdu_read.specs.Tlv.{meant};

use crate::condition::is_reserved;
use types::{FinishedParams, Meaning, ReadError};

// Where a run of TLVs stands, byte by byte.
#[derive(Clone, Copy)]
pub enum Tlv {
    AtType,
    AtLength,
    // inside a value, with so many bytes to come behind the next one
    InValue(u8),
    Broken,
}

// Before a value of k bytes.
fn value_of(k: u8) -> Tlv
    ensures { meant result ≡ value_of k }
{
    k.checked_sub(1).map_or(Tlv::AtType, Tlv::InValue)
}

fn tlv_next(t: Tlv, b: u8) -> Tlv
    ensures { meant result ≡ tlv_next (meant t) b }
{
    match t {
        Tlv::AtType if matches!(b, 1 | 6) => Tlv::AtLength,
        Tlv::AtType => Tlv::Broken,
        Tlv::AtLength => value_of(b),
        Tlv::InValue(k) => value_of(k),
        Tlv::Broken => Tlv::Broken,
    }
}

fn is_closed(t: Tlv) -> bool
    ensures { result ≡ closed (meant t) }
{
    matches!(t, Tlv::AtType)
}

#[tactic(auto, using(crate::proofs::Tlvs::running), unfolding(rules_pdu::specs::Reading::are_tlvs))]
fn are_tlvs(s: &[u8]) -> bool
    ensures { result ≡ are_tlvs s.now }
{
    let mut t = Tlv::AtType;
    for b in s {
        t = tlv_next(t, *b);
    }
    is_closed(t)
}

#[tactic(auto, unfolding(rules_pdu::specs::Reading::finished_params))]
fn finished_params(b: u8) -> FinishedParams
    ensures { result ≡ finished_params b }
{
    FinishedParams {
        condition: b >> 4,
        delivery: (b >> 2) & 1,
        status: b & 3,
    }
}

#[tactic(auto, using(crate::proofs::Tests::tests), unfolding(rules_pdu::specs::Reading::finished_in, basis::specs::Bytes::byte))]
pub fn finished_in(b: &[u8]) -> Result<Meaning, ReadError>
    ensures { result ≡ finished_in b.now }
{
    if b.len() < 2 || is_reserved(b[1] >> 4) || !are_tlvs(&b[2..]) {
        return Err(ReadError::Malformed);
    }
    Ok(Meaning::Finished(finished_params(b[1])))
}
