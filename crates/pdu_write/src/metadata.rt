// Metadata: closure and checksum type, size, the two names, each behind its length.
ghost use Rattle.rules_pdu.specs.Layout.{metadata};

use crate::body::Body;
use basis::fields::{put_be, put_bytes};
use pdu_read::directive::Directive;
use pdu_read::field::size_width;

// Stays: the checksum type is a number, as the definition `metadata` takes it.
#[derive(Clone, Copy)]
pub struct Metadata<'a> {
    pub closure: bool,
    pub kind: u8,
    pub size: u64,
    pub source: &'a [u8],
    pub destination: &'a [u8],
}

#[tactic(auto, using(crate::proofs::Frame::laying), unfolding(rules_pdu::specs::Layout::body_bytes))]
impl<'a> Body for Metadata<'a> {
    ghost said = { λ b. metadata b.closure b.kind b.size b.source.now b.destination.now };

    fn is_file_data(self) -> bool {
        false
    }

    fn length(self, large: bool) -> Option<usize> {
        let n = 4 + size_width(large) + self.source.len();
        n.checked_add(self.destination.len())
    }

    fn put(self, out: &mut [u8], at: usize, large: bool) -> usize {
        let f = size_width(large);
        let flags = u64::from(self.closure) * 64 + u64::from(self.kind);
        let p0 = put_be(out, at, 1, Directive::Metadata as u64);
        let p1 = put_be(out, p0, 1, flags);
        let p2 = put_be(out, p1, f, self.size);
        let p3 = put_be(out, p2, 1, self.source.len() as u64);
        let p4 = put_bytes(out, p3, self.source);
        let p5 = put_be(out, p4, 1, self.destination.len() as u64);
        put_bytes(out, p5, self.destination)
    }
}
