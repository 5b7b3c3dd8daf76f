// ACK of Finished: condition, status.
ghost use Rattle.rules_pdu.specs.Layout.{ack_finished};

use crate::body::Body;
use basis::fields::put_be;
use pdu_read::directive::{Directive, OF_FINISHED};

// Stays: numbers, as the definition `ack_finished` takes them.
#[derive(Clone, Copy)]
pub struct AckFinished {
    pub condition: u8,
    pub status: u8,
}

#[tactic(auto, using(crate::proofs::Frame::laying), unfolding(rules_pdu::specs::Layout::body_bytes))]
impl Body for AckFinished {
    ghost said = { λ b. ack_finished b.condition b.status };

    fn is_file_data(self) -> bool {
        false
    }

    fn length(self, _large: bool) -> Option<usize> {
        Some(3)
    }

    fn put(self, out: &mut [u8], at: usize, _large: bool) -> usize {
        let flags = (self.condition as u64) * 16 + (self.status as u64);
        let p0 = put_be(out, at, 1, Directive::Ack as u64);
        let p1 = put_be(out, p0, 1, OF_FINISHED as u64);
        put_be(out, p1, 1, flags)
    }
}
