// The PDUs that a sender writes, but for metadata: the bytes, and what the decoder makes of them, held to the vector.
ghost use Rattle.std.specs.Prelude.{◌≤◌};

use crate::{decoder, take};
use pdu_write::ack::AckFinished;
use pdu_write::body::{Body, write};
use pdu_write::file_data::FileData;
use stream::Stream;
use types::{Eof, Head};

// The length that was written is the wanted PDU's, and so are the bytes; the byte behind is as it was.
fn wrote(w: Option<usize>, out: &[u8], want: &[u8]) -> bool {
    w == Some(want.len()) && out.starts_with(want) && out.get(want.len()) == Some(&165)
}

// A buffer that is too short takes nothing.
fn refused(w: Option<usize>, out: &[u8]) -> bool {
    w.is_none() && out.iter().all(|&b| b == 165)
}

// The writer, held to the wanted PDU in a buffer that has room and in one that is too short.
pub(crate) fn writes<const ROOM: usize, const SHORT: usize, B: Body>(
    h: Head,
    body: B,
    want: &[u8],
) -> bool
    requires room { ROOM ≤ 1024 }
    requires short { SHORT ≤ 1024 }
{
    let mut out = [165u8; ROOM];
    let mut small = [165u8; SHORT];
    wrote(write(&mut out, h, body), &out, want) && refused(write(&mut small, h, body), &small)
}

fn data_agrees(pdu: &[u8], h: Head, want: FileData) -> bool {
    let Some(mut b) = decoder::body_of(pdu, h, true) else {
        return false;
    };
    b.next(decoder::size_width(h)) == Some(want.offset) && b.has(want.bytes) && b.is_over()
}

pub fn data_vector(v: &mut Stream) -> bool {
    let h = take::head(v);
    let data = FileData {
        offset: v.number(8),
        bytes: v.blob(2),
    };
    let want = v.blob(2);
    writes::<1024, 10, _>(h, data, want) && data_agrees(want, h, data)
}

// Stays: the codes and layouts here and in module `metadata` are the decoder's own numbers, since the writers are held against them.
fn eof_agrees(pdu: &[u8], h: Head, want: Eof) -> bool {
    let Some(mut b) = decoder::body_of(pdu, h, false) else {
        return false;
    };
    b.next(1) == Some(4)
        && b.next(1) == Some(u64::from(want.condition) * 16)
        && b.next(4) == Some(u64::from(want.sum))
        && b.next(decoder::size_width(h)) == Some(want.size)
        && b.is_over()
}

pub fn eof_vector(v: &mut Stream) -> bool {
    let h = take::head(v);
    let eof = Eof {
        condition: v.byte(),
        sum: (v.number(4) % 4294967296) as u32,
        size: v.number(8),
    };
    let want = v.blob(2);
    writes::<64, 16, _>(h, eof, want) && eof_agrees(want, h, eof)
}

fn ack_agrees(pdu: &[u8], h: Head, want: AckFinished) -> bool {
    let Some(mut b) = decoder::body_of(pdu, h, false) else {
        return false;
    };
    b.next(2) == Some(0x0651)
        && b.next(1) == Some(u64::from(want.condition) * 16 + u64::from(want.status))
        && b.is_over()
}

pub fn ack_vector(v: &mut Stream) -> bool {
    let h = take::head(v);
    let ack = AckFinished {
        condition: v.byte(),
        status: v.byte(),
    };
    let want = v.blob(2);
    writes::<64, 9, _>(h, ack, want) && ack_agrees(want, h, ack)
}
