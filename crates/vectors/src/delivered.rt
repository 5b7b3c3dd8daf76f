// What a delivery is read as, held to the vector.
use crate::take;
use pdu_read::directive::{Directive, read_body};
use pdu_read::field::size_width;
use pdu_read::header::read_header;
use pdu_read::nak::NakPduReader;
use stream::Stream;
use types::{FinishedParams, Frame, Meaning, ReadError, Refusal, SegmentRequest};

// The vector's pairs stand behind their count. Of 62,500 and more, which no stream holds, not even the count is passed over.
fn nak_agrees(delivery: &[u8], f: Frame, n: usize, v: &mut Stream) -> bool {
    let mut behind = *v;
    let count = take::length(&mut behind);
    let mut pairs = Stream(behind.run(16 * count));
    if count < 62500 {
        *v = behind;
    }
    let large = f.head.large;
    let mut requests = NakPduReader {
        pdu: delivery,
        large,
        at: f.start.saturating_add(1 + 2 * size_width(large)),
        left: n,
    };
    n == count
        && requests.all(|r| {
            r == SegmentRequest {
                start: pairs.number(8),
                end: pairs.number(8),
            }
        })
}

// The vector's meaning stands behind its code. If that is of another meaning, nobody knows how long it is.
fn meaning_agrees(delivery: &[u8], f: Frame, m: Meaning, v: &mut Stream) -> Option<bool> {
    let code = v.byte();
    match m {
        Meaning::Finished(p) if code == Directive::Finished as u8 => {
            let want = FinishedParams {
                condition: v.byte(),
                delivery: v.byte(),
                status: v.byte(),
            };
            Some(p == want)
        }
        Meaning::AckOfEof => Some(code == Directive::Ack as u8),
        Meaning::Nak(n) if code == Directive::Nak as u8 => Some(nak_agrees(delivery, f, n, v)),
        Meaning::KeepAlive(progress) if code == Directive::KeepAlive as u8 => Some(
            progress == v.number(8),
        ),
        _ => None,
    }
}

// How many bytes are the PDU's, and the answer to it, held to those of the vector; behind an answer of 0 stands the meaning.
pub fn delivery_vector(v: &mut Stream) -> Option<bool> {
    let delivery = v.blob(2);
    let length = v.number(3);
    let answer = v.byte();
    let Some(f) = read_header(delivery) else {
        return Some(answer == Refusal::Malformed as u8 && length == 0);
    };
    match read_body(delivery, f) {
        Err(ReadError::Malformed) => Some(answer == Refusal::Malformed as u8 && length == 0),
        Err(ReadError::CantProcess) => Some(
            answer == Refusal::CantProcessPacketType as u8 && length == f.length as u64,
        ),
        Ok(m) if answer == 0 => {
            Some(meaning_agrees(delivery, f, m, v)? && length == f.length as u64)
        }
        Ok(_) => None,
    }
}
