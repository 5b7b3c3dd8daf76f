// EOF: condition, checksum, size.
ghost use Rattle.rules_pdu.specs.Layout.{eof};

use crate::body::Body;
use basis::fields::put_be;
use pdu_read::directive::Directive;
use pdu_read::field::size_width;
use types::Eof;

#[tactic(auto, using(crate::proofs::Frame::laying), unfolding(rules_pdu::specs::Layout::body_bytes))]
impl Body for Eof {
    ghost said = { λ b. eof b.condition b.sum b.size };

    fn is_file_data(self) -> bool {
        false
    }

    fn length(self, large: bool) -> Option<usize> {
        Some(6 + size_width(large))
    }

    fn put(self, out: &mut [u8], at: usize, large: bool) -> usize {
        let f = size_width(large);
        let flags = (self.condition as u64) * 16;
        let p0 = put_be(out, at, 1, Directive::Eof as u64);
        let p1 = put_be(out, p0, 1, flags);
        let p2 = put_be(out, p1, 4, self.sum as u64);
        put_be(out, p2, f, self.size)
    }
}
