// A NAK's body and its requests read: any bytes are taken, and each function is equal to its definition (`rules_pdu`; the reader's in specs/).
// 8 NAK: scope start, scope end, then pairs start, end, F bytes each; the scope is not judged.
ghost use Rattle.std.specs.Prelude.{◌≡◌, ◌+◌, ◌≤◌, length};
ghost use Rattle.std.specs.Iterator.{item_count};
ghost use Rattle.basis.specs.Bytes.{num_at};
ghost use Rattle.rules_pdu.specs.Numbers.{F};
ghost use Rattle.rules_pdu.specs.Reading.{nak_in, request_at};
ghost use Rattle.pdu_read.specs.Reader.{pair_at, left_of, GivesNext};

use crate::field::{num_of, size_width};
use basis::fields::four;
use types::{Meaning, ReadError, SegmentRequest};

#[tactic(auto, using(crate::proofs::Tests::tests), unfolding(rules_pdu::specs::Reading::nak_in, rules_pdu::specs::Reading::request_count))]
pub fn nak_in(large: bool, b: &[u8]) -> Result<Meaning, ReadError>
    ensures { result ≡ nak_in large b.now }
{
    let f = size_width(large);
    let scope = 1 + 2 * f;
    if b.len() < scope || (b.len() - scope) % (2 * f) != 0 {
        return Err(ReadError::Malformed);
    }
    Ok(Meaning::Nak((b.len() - scope) / (2 * f)))
}

// Stays: bytes, width and place apart in the functions below the reader, which is the struct of them: `request_at` and `num_at` take them so.

// The number that stands F bytes behind a place; 0 past the end.
#[tactic(auto, using(crate::proofs::Fields::cutting))]
fn size_behind(s: &[u8], large: bool, at: usize) -> u64
    ensures { result ≡ num_at s.now (at + F large) (F large) }
{
    let f = size_width(large);
    if s.len() <= at || s.len() - at <= f {
        return 0;
    }
    num_of(s, at + f, f)
}

// A request, and the place behind its pair.
#[derive(Clone, Copy)]
pub struct Pair {
    pub request: SegmentRequest,
    pub next: usize,
}

// Where the bytes end before the pair does: what is there of it. They end there too.
#[tactic(auto, unfolding(rules_pdu::specs::Reading::request_at, crate::specs::Reader::pair_at))]
#[cold]
fn pair_cut(s: &[u8], large: bool, at: usize) -> Pair
    requires { length s.now ≤ at + F large + F large }
    ensures { result ≡ pair_at large s.now at }
{
    let f = size_width(large);
    let start = num_of(s, at, f);
    let end = size_behind(s, large, at);
    let next = s.len();
    let request = SegmentRequest { start, end };
    Pair { request, next }
}

// Numbers of four bytes, or of twice four.
#[tactic(auto, unfolding(rules_pdu::specs::Reading::request_at))]
fn request_whole(s: &[u8], large: bool, at: usize) -> SegmentRequest
    requires { at + F large + F large ≤ length s.now }
    ensures { result ≡ request_at large s.now at }
{
    let a = four(s, at);
    let b = four(s, at + 4);
    if large {
        let c = four(s, at + 8);
        let d = four(s, at + 12);
        return SegmentRequest {
            start: a * 4294967296 + b,
            end: c * 4294967296 + d,
        };
    }
    SegmentRequest { start: a, end: b }
}

// One request, from any place of the delivered bytes, and the place of the next one.
#[tactic(auto, using(crate::proofs::Pairs::behind), unfolding(crate::specs::Reader::pair_at))]
pub fn pair_from(pdu: &[u8], large: bool, at: usize) -> Pair
    ensures { result ≡ pair_at large pdu.now at }
{
    let w = 2 * size_width(large);
    if pdu.len() <= at || pdu.len() - at < w {
        return pair_cut(pdu, large, at);
    }
    let request = request_whole(pdu, large, at);
    Pair {
        request,
        next: at + w,
    }
}

// The requests of a delivered NAK, one after the other: the delivered bytes, a place among them, and how many are left from there on. The work is `pair_from`'s.
#[derive(Clone, Copy)]
pub struct NakPduReader<'a> {
    pub pdu: &'a [u8],
    pub large: bool,
    pub at: usize,
    pub left: usize,
}

impl<'a> Iterator for NakPduReader<'a> {
    type Item = SegmentRequest;

    ghost next_gives = { GivesNext };

    ghost remaining = { item_count left_of };

    #[tactic(auto, using(crate::proofs::Requests::first, crate::proofs::Requests::none), unfolding(crate::specs::Reader::pair_at))]
    #[inline(always)]
    fn next(&mut self) -> Option<SegmentRequest> {
        if self.left == 0 {
            return None;
        }
        let Pair { request, next } = pair_from(self.pdu, self.large, self.at);
        self.at = next;
        self.left -= 1;
        Some(request)
    }
}
