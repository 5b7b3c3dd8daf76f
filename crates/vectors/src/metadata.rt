// The metadata PDU, written: its bytes, and what the decoder makes of them, held to the vector.
use crate::written::writes;
use crate::{decoder, take};
use pdu_write::metadata::Metadata;
use stream::Stream;
use types::Head;

fn metadata_agrees(pdu: &[u8], h: Head, want: Metadata) -> bool {
    let Some(mut b) = decoder::body_of(pdu, h, false) else {
        return false;
    };
    b.next(1) == Some(7)
        && b.next(1).is_some_and(|flags| {
            (flags / 64 == 1) == want.closure && flags % 64 == u64::from(want.kind)
        })
        && b.next(decoder::size_width(h)) == Some(want.size)
        && b.has_name(want.source)
        && b.has_name(want.destination)
        && b.is_over()
}

pub fn metadata_vector(v: &mut Stream) -> bool {
    let h = take::head(v);
    let metadata = Metadata {
        closure: v.byte() == 1,
        kind: v.byte(),
        size: v.number(8),
        source: v.blob(2),
        destination: v.blob(2),
    };
    let want = v.blob(2);
    writes::<1024, 16, _>(h, metadata, want) && metadata_agrees(want, h, metadata)
}
