// "Numbers": widths, the next sequence number, and L.
// After cfdp-rs 0.3.0, src/source.rs (Apache-2.0); changed, see NOTICE.
ghost use Rattle.std.specs.Prelude.{◌≡◌, ◌+◌, ◌≤◌, true};
ghost use Rattle.rules_pdu.specs.Numbers.{good_width, fits, number_after, H as lengthH, F, C, is_large, segment_length};

use types::{Head, TransactionSeqNum};

// Width 1, 2, 4 or 8 and a value that fits it.
// Stays: a width is a number, as C's structs `EntityId` and `TransactionSeqNum` have it.
#[tactic(auto, unfolding(rules_pdu::specs::Numbers::fits, rules_pdu::specs::Numbers::good_width))]
pub fn fits(w: u8, v: u64) -> bool
    ensures { result ≡ fits w v }
{
    match w {
        1 => v < 256,
        2 => v < 65536,
        4 => v < 4294967296,
        _ => w == 8,
    }
}

// After the last number of its width comes 0.
#[tactic(auto, unfolding(rules_pdu::specs::Numbers::number_after, rules_pdu::specs::Numbers::good_width))]
pub fn number_after(n: TransactionSeqNum) -> TransactionSeqNum
    requires { good_width n.0 ≡ true }
    ensures { result ≡ number_after n }
{
    let v = n.1.wrapping_add(1);
    let kept = match n.0 {
        1 => v % 256,
        2 => v % 65536,
        4 => v % 4294967296,
        _ => v,
    };
    TransactionSeqNum(n.0, kept)
}

#[tactic(auto, unfolding(rules_pdu::specs::Numbers::is_large))]
pub fn is_large(size: u64) -> bool
    ensures { result ≡ is_large size }
{
    size > 4294967295
}

// H + F + C
pub fn overhead(h: Head) -> u64
    ensures { (result ≡ lengthH h + F h.large + C h.crc) × (result ≤ 1000) }
{
    let f = 4 + 4 * u64::from(h.large);
    let c = 2 * u64::from(h.crc);
    4 + 2 * u64::from(h.source.0) + u64::from(h.number.0) + f + c
}

// L
#[tactic(auto, unfolding(rules_pdu::specs::Numbers::segment_length))]
pub fn segment_length(maxsegment: u64, maxpacket: u64, h: Head) -> u64
    ensures { result ≡ segment_length maxsegment maxpacket h }
{
    maxsegment.min(maxpacket.saturating_sub(overhead(h)))
}
