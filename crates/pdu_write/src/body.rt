// A PDU of a sender written: header, body and CRC one behind the other, whatever the body says.
ghost use Rattle.std.specs.Prelude.{◌≡◌, ◌+◌, ◌^◌, ◌<◌, ◌≤◌, leb, length, SomeIff};
ghost use Rattle.basis.specs.Laid.{laid, in_front};
ghost use Rattle.rules_pdu.specs.Fields.{sizes};
ghost use Rattle.rules_pdu.specs.Layout.{Said, is_file_data, layout, body_bytes, encode, pdu_length, written_of};

use crate::header::{head_length, put_crc, put_head};
use pdu_read::field::crc_length;
use types::Head;

// What a PDU carries behind its header.
pub trait Body: Copy {
    // What it says.
    ghost said: { Self → Said };

    // The PDU's type.
    fn is_file_data(self) -> bool
        ensures { result ≡ is_file_data (said self) };

    // How long it is, where a usize holds that: the lengths of two slices may add up to more.
    fn length(self, large: bool) -> Option<usize>
        ensures { SomeIff result (sizes (layout large (said self)) < 2 ^ 64) (sizes (layout large (said self))) };

    // Its bytes at a place of out; the place behind them.
    // Stays: a place beside the buffer, which a contract says whole (`laid`).
    fn put(self, out: &mut [u8], at: usize, large: bool) -> usize
        requires { at + sizes (layout large (said self)) ≤ length out.old }
        ensures { (result ≡ at + sizes (layout large (said self))) × (out.new ≡ laid out.old at (body_bytes large (said self))) };
}

// Whether so many bytes have room for the PDU.
#[tactic(auto, using(std::proofs::lemmas::Bool::Decides::nat_tests), unfolding(rules_pdu::specs::Layout::pdu_length))]
fn fits<B: Body>(h: Head, body: B, room: usize) -> bool
    ensures { result ≡ leb (pdu_length h (B.said body)) room }
{
    let frame = head_length(h) + crc_length(h.crc);
    match body.length(h.large) {
        Some(n) => frame <= room && n <= room - frame,
        None => false,
    }
}

// The PDU where there is room for it; its length.
#[tactic(auto, using(crate::proofs::Frame::has_room, crate::proofs::Frame::there))]
#[inline(always)]
pub fn put<B: Body>(out: &mut [u8], h: Head, body: B) -> usize
    requires { length (encode h (B.said body)) ≤ length out.old }
    ensures value { result ≡ length (encode h (B.said body)) }
    ensures out_after { out.new ≡ in_front (encode h (B.said body)) out.old }
{
    let n = body.length(h.large).unwrap() + crc_length(h.crc);
    let a = put_head(out, h, body.is_file_data(), n);
    let b = body.put(out, a, h.large);
    put_crc(out, b, h.crc)
}

// The PDU, or nothing where there is no room for it.
#[tactic(auto, using(crate::proofs::Frame::writing))]
pub fn write<B: Body>(out: &mut [u8], h: Head, body: B) -> Option<usize>
    ensures value { result ≡ written_of (encode h (B.said body)) out.old }
    ensures out_after { out.new ≡ in_front (encode h (B.said body)) out.old }
{
    if fits(h, body, out.len()) {
        return Some(put(out, h, body));
    }
    None
}
