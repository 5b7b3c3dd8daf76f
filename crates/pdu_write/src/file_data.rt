// File data: offset, bytes.
ghost use Rattle.std.specs.Prelude.{◌≡◌, List, ℕ, ◌+◌, ◌^◌, ◌<◌, ◌≤◌, length};
ghost use Rattle.rules_pdu.specs.Layout.{file_data, pdu_length};

use crate::body::Body;
use crate::header::head_length;
use basis::fields::{put_be, put_bytes};
use pdu_read::field::{crc_length, size_width};
use types::Head;

#[derive(Clone, Copy)]
pub struct FileData<'a> {
    pub offset: u64,
    pub bytes: &'a [u8],
}

#[tactic(auto, using(crate::proofs::Frame::laying), unfolding(rules_pdu::specs::Layout::body_bytes))]
impl<'a> Body for FileData<'a> {
    ghost said = { λ b. file_data b.offset b.bytes.now };

    fn is_file_data(self) -> bool {
        true
    }

    fn length(self, large: bool) -> Option<usize> {
        Some(size_width(large) + self.bytes.len())
    }

    fn put(self, out: &mut [u8], at: usize, large: bool) -> usize {
        let f = size_width(large);
        let p0 = put_be(out, at, f, self.offset);
        put_bytes(out, p0, self.bytes)
    }
}

// The PDU's length, with so many bytes of the file. A header is shorter than 1,024 bytes, whatever it says; offset and CRC have at most ten.
#[tactic(auto, unfolding(rules_pdu::specs::Layout::pdu_length))]
pub fn file_data_length(h: Head, n: usize) -> usize
    requires { n + 1034 ≤ 2 ^ 64 }
    ensures by_index { (offset : ℕ) (bytes : List ℕ) → length bytes ≡ n → result ≡ pdu_length h (file_data offset bytes) }
    ensures upper_bound { result < n + 1034 }
{
    head_length(h) + size_width(h.large) + n + crc_length(h.crc)
}
