// What all PDUs that a sender writes share: the header in front of the body, and the CRC behind it. Both are total but for the room
// that they ask for: whatever header is given, a number keeps as many of its lowest bytes as its field has.
ghost use Rattle.std.specs.Prelude.{◌≡◌, false, ◌+◌, ◌-◌, ◌<◌, ◌≤◌, length, take};
ghost use Rattle.basis.specs.Laid.{laid};
ghost use Rattle.rules_pdu.specs.Numbers.{H as headLength, C};
ghost use Rattle.rules_pdu.specs.Layout.{byte0, byte3, head_bytes, trailer};

use basis::fields::put_be;
use checksum::crc16;
use types::Head;

// H: the header's own length.
// Stays: the reader has one of its own (pdu_read), which takes bytes and no header, and a put works with numbers of eight bytes (source_put, `overhead`).
pub fn head_length(h: Head) -> usize
    ensures { (result ≡ headLength h) × (result < 1024) }
{
    4 + 2 * (h.source.0 as usize) + (h.number.0 as usize)
}

// ---- the two packed bytes

// Byte 0 from the top: version 001, type, direction, mode, CRC flag, large flag.
#[tactic(auto, using(crate::proofs::Packs::packing))]
fn pack0(filedata: bool, tosender: bool, unacknowledged: bool, crc: bool, large: bool) -> u8
    ensures { result ≡ byte0 filedata tosender unacknowledged crc large }
{
    let t = u8::from(filedata);
    let d = u8::from(tosender);
    let m = u8::from(unacknowledged);
    let c = u8::from(crc);
    let l = u8::from(large);
    (1 << 5) | (t << 4) | (d << 3) | (m << 2) | (c << 1) | l
}

// Byte 3: segmentation control 0, id width - 1, segment metadata flag 0, sequence width - 1; 0 for a width of 0.
#[tactic(auto, using(crate::proofs::Packs::packed3))]
fn pack3(idwidth: u8, seqwidth: u8) -> u8
    ensures { result ≡ byte3 idwidth seqwidth }
{
    let i = idwidth.saturating_sub(1);
    let s = seqwidth.saturating_sub(1);
    ((i & 7) << 4) | (s & 7)
}

// ---- the header, and the CRC

// The header towards the receiver in front of out; n is the length of the data field. Both ids take the source id's width.
#[tactic(auto, using(crate::proofs::Frame::laying), unfolding(rules_pdu::specs::Layout::head_bytes))]
pub fn put_head(out: &mut [u8], h: Head, filedata: bool, n: usize) -> usize
    requires { headLength h ≤ length out.old }
    ensures { (result ≡ headLength h) × (out.new ≡ laid out.old 0 (head_bytes h filedata false n)) }
{
    let idwidth = h.source.0;
    let seqwidth = h.number.0;
    let b0 = pack0(filedata, false, h.unacknowledged, h.crc, h.large);
    let b3 = pack3(idwidth, seqwidth);
    let p0 = put_be(out, 0, 1, b0 as u64);
    let p1 = put_be(out, p0, 2, n as u64);
    let p2 = put_be(out, p1, 1, b3 as u64);
    let p3 = put_be(out, p2, idwidth as usize, h.source.1);
    let p4 = put_be(out, p3, seqwidth as usize, h.number.1);
    put_be(out, p4, idwidth as usize, h.destination.1)
}

// Where the flag asks for it, the CRC over the first n bytes of out, behind them.
#[tactic(auto, using(crate::proofs::Frame::closing), unfolding(rules_pdu::specs::Layout::trailer))]
pub fn put_crc(out: &mut [u8], n: usize, crc: bool) -> usize
    requires { n + C crc ≤ length out.old }
    ensures { (result ≡ n + C crc) × (out.new ≡ laid out.old n (trailer crc (take n out.old))) }
{
    if crc {
        let sum = crc16(&out[..n]);
        return put_be(out, n, 2, sum as u64);
    }
    n
}
