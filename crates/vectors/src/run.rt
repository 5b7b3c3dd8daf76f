// Each kind of vector: what the crates say of it, held to what the vector says.
use crate::delivered::delivery_vector;
use crate::metadata::metadata_vector;
use crate::written::{ack_vector, data_vector, eof_vector};
use std::io;
use stream::Stream;

fn utf8_vector(v: &mut Stream) -> bool {
    let name = v.blob(2);
    let valid = v.byte() == 1;
    utf8::is_utf8(name) == valid
}

fn sum_vector(v: &mut Stream) -> bool {
    let kind = v.byte();
    let n = v.number(4) as usize;
    let file = v.blob(2);
    let known = v.byte() == 1;
    let want = v.number(4);
    checksum::calculate_checksum(kind, file, n).map(u64::from) == known.then_some(want)
}

fn crc_vector(v: &mut Stream) -> bool {
    let bytes = v.blob(2);
    u64::from(checksum::crc16(bytes)) == v.number(2)
}

// Whether a vector agrees; none if nobody knows where it ends.
// Stays: an enum of the kinds needs this match twice, from number to variant and from variant to function, and is used nowhere else.
fn one(kind: u8, v: &mut Stream) -> Option<bool> {
    match kind {
        1 => Some(utf8_vector(v)),
        2 => Some(sum_vector(v)),
        3 => Some(crc_vector(v)),
        4 => Some(metadata_vector(v)),
        5 => Some(data_vector(v)),
        6 => Some(eof_vector(v)),
        7 => Some(ack_vector(v)),
        8 => delivery_vector(v),
        _ => None,
    }
}

fn say(rt: &impl Print, label: &[u8], ok: bool) -> io::Result<()> {
    let words = if ok { ": ok\n" } else { ": differs\n" };
    rt.write_all(label)?;
    rt.write_all(words.as_bytes())
}

// Every vector takes bytes, so there are no more of them than bytes.
pub fn all(rt: &impl Print, s: &[u8]) -> io::Result<()> {
    let mut v = Stream(s);
    let mut count: u64 = 0;
    let mut bad: u64 = 0;
    for _ in 0..s.len() {
        if v.is_empty() {
            break;
        }
        let kind = v.byte();
        let n = v.byte();
        let label = v.run(usize::from(n));
        let agrees = one(kind, &mut v);
        let ok = agrees.unwrap_or(false);
        say(rt, label, ok)?;
        count = count.saturating_add(1);
        bad = bad.saturating_add(u64::from(!ok));
        if agrees.is_none() {
            break;
        }
    }
    println!(rt; "{count} vectors, {bad} differ")
}
