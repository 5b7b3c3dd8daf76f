// The header of a delivery read: the frame that it sets, or Malformed, whatever bytes came. In module field: what all readers take.
// Byte 0 from the top: version 001 (3 bits), type, direction, mode, CRC flag, large flag; two bytes of data field
// length; byte 3: segmentation control (1), id width - 1 (3), segment metadata flag (1), sequence width - 1 (3); then source id,
// sequence number, destination id. With the CRC flag a CRC-16 closes the data field.
#![tactic(auto, using(crate::proofs::Framed::framing), unfolding(rules_pdu::specs::Reading::bit_in, rules_pdu::specs::Reading::version_in, rules_pdu::specs::Reading::crc_in, rules_pdu::specs::Reading::length_in, rules_pdu::specs::Reading::id_width_in, rules_pdu::specs::Reading::seq_width_in, rules_pdu::specs::Numbers::good_width, rules_pdu::specs::Reading::head_in, rules_pdu::specs::Reading::unacknowledged_in, rules_pdu::specs::Reading::large_in, rules_pdu::specs::Reading::crc_agrees, basis::specs::Bytes::part, rules_pdu::specs::Reading::crc_good, rules_pdu::specs::Reading::well_framed, rules_pdu::specs::Reading::frame_in, rules_pdu::specs::Reading::file_data_in, rules_pdu::specs::Reading::to_sender_in, rules_pdu::specs::Reading::framed_in))]

ghost use Rattle.std.specs.Prelude.{◌≡◌, ◌<◌, ◌≤◌, ◌^◌, length};
ghost use Rattle.rules_pdu.specs.Numbers.{good_width};
ghost use Rattle.rules_pdu.specs.Reading.{bit_in, version_in, crc_in, length_in, id_width_in, seq_width_in, head_in, h_in, end_in, crc_agrees, crc_good, well_framed, frame_in, framed_in};

use crate::field::{byte_at, crc_length, num_in, num_of, part_of};
use checksum::crc16;
use types::{EntityId, Frame, Head, TransactionSeqNum};

// ---- byte 0

fn bit(b: u8, k: u8) -> bool
    requires { k < 8 }
    ensures { result ≡ bit_in b (2 ^ k) }
{
    (b >> k) & 1 == 1
}

fn version(s: &[u8]) -> u8
    ensures { result ≡ version_in s.now }
{
    byte_at(s, 0) >> 5
}

fn has_crc(s: &[u8]) -> bool
    ensures { result ≡ crc_in s.now }
{
    bit(byte_at(s, 0), 1)
}

// ---- the data field's length

fn data_length(s: &[u8]) -> usize
    ensures { (result ≡ length_in s.now) × (result < 65536) }
{
    num_of(s, 1, 2) as usize
}

// ---- byte 3

fn id_width(s: &[u8]) -> u8
    ensures { (result ≡ id_width_in s.now) × (result ≤ 8) }
{
    ((byte_at(s, 3) >> 4) & 7) + 1
}

fn seq_width(s: &[u8]) -> u8
    ensures { (result ≡ seq_width_in s.now) × (result ≤ 8) }
{
    (byte_at(s, 3) & 7) + 1
}

fn good_width(w: u8) -> bool
    ensures { result ≡ good_width w }
{
    matches!(w, 1 | 2 | 4 | 8)
}

// ---- what the header says

// Of a header that is there.
fn head_in(s: &[u8]) -> Head
    requires { h_in s.now ≤ length s.now }
    ensures { result ≡ head_in s.now }
{
    let b0 = byte_at(s, 0);
    let unacknowledged = bit(b0, 2);
    let crc = bit(b0, 1);
    let large = bit(b0, 0);
    let i = id_width(s);
    let n = seq_width(s);
    let source = num_in(s, 4, i as usize);
    let number = num_in(s, 4 + i as usize, n as usize);
    let destination = num_in(s, 4 + i as usize + n as usize, i as usize);
    Head {
        unacknowledged,
        crc,
        large,
        source: EntityId(i, source),
        number: TransactionSeqNum(n, number),
        destination: EntityId(i, destination),
    }
}

// ---- the frame

// H
fn head_length(s: &[u8]) -> usize
    ensures { (result ≡ h_in s.now) × (result ≤ 28) }
{
    let i = id_width(s) as usize;
    let n = seq_width(s) as usize;
    4 + 2 * i + n
}

// Where the PDU ends, by its own header. What stands behind is fill.
fn pdu_end(s: &[u8]) -> usize
    ensures { (result ≡ end_in s.now) × (result < 65564) }
{
    head_length(s) + data_length(s)
}

fn crc_agrees(s: &[u8]) -> bool
    ensures { result ≡ crc_agrees s.now }
{
    let at = pdu_end(s) - 2;
    let before = part_of(s, 0, at);
    let found = num_of(s, at, 2);
    found == crc16(before) as u64
}

fn crc_good(s: &[u8]) -> bool
    ensures { result ≡ crc_good s.now }
{
    !has_crc(s) || data_length(s) >= 2 && crc_agrees(s)
}

fn well_framed(s: &[u8]) -> bool
    ensures { result ≡ well_framed s.now }
{
    s.len() >= 4
        && version(s) == 1
        && good_width(id_width(s))
        && good_width(seq_width(s))
        && pdu_end(s) <= s.len()
        && crc_good(s)
}

fn frame_in(s: &[u8]) -> Frame
    requires { h_in s.now ≤ length s.now }
    ensures { result ≡ frame_in s.now }
{
    let b0 = byte_at(s, 0);
    let head = head_in(s);
    let filedata = bit(b0, 4);
    let tosender = bit(b0, 3);
    let start = head_length(s);
    let length = pdu_end(s);
    // the body ends in front of its CRC
    let end = length - crc_length(has_crc(s));
    Frame {
        head,
        filedata,
        tosender,
        start,
        end,
        length,
    }
}

pub fn read_header(s: &[u8]) -> Option<Frame>
    ensures { result ≡ framed_in s.now }
{
    if well_framed(s) {
        return Some(frame_in(s));
    }
    None
}
