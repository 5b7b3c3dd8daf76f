// A decoder of its own for what the writers wrote: no code of the readers or writers is used, and CRC-16 goes by a byte-wise formula.
// Stays: what stands in the readers and writers too, and its own numbers, since those are held against it.
ghost use Rattle.std.specs.Prelude.{◌≤◌};

use types::Head;

// A number, highest byte first, modulo 2^64.
fn number(b: &[u8]) -> u64 {
    b.iter().fold(0, |v, &x| v << 8 | u64::from(x))
}

// One byte of CRC-16 by the formula without tables.
fn crc_byte(c: u16, b: u8) -> u16 {
    let x = c >> 8 ^ u16::from(b);
    let x = x ^ x >> 4;
    c << 8 ^ x << 12 ^ x << 5 ^ x
}

fn crc(b: &[u8]) -> u16 {
    b.iter().fold(0xFFFF, |c, &x| crc_byte(c, x))
}

// Version 1, file data or not, towards the receiver, the three flags.
fn first_byte(h: Head, filedata: bool) -> u8 {
    let bits = [filedata, false, h.unacknowledged, h.crc, h.large];
    bits.iter().fold(1, |v, &b| v << 1 | u8::from(b))
}

// The body of a PDU that has this header, and this CRC if it has one; of others none.
pub fn body_of(pdu: &[u8], h: Head, filedata: bool) -> Option<Body<'_>> {
    let mut rest = Body(pdu);
    let first = rest.next(1)?;
    let length = rest.next(2)?;
    let widths = rest.next(1)?;
    let idw = h.source.0;
    let seqw = h.number.0;
    let source = rest.next(usize::from(idw))?;
    let number = rest.next(usize::from(seqw))?;
    let destination = rest.next(usize::from(idw))?;
    let agrees = first == u64::from(first_byte(h, filedata))
        && length == rest.0.len() as u64
        && widths / 16 + 1 == u64::from(idw)
        && widths % 16 + 1 == u64::from(seqw)
        && source == h.source.1
        && number == h.number.1
        && destination == h.destination.1;
    if !agrees {
        return None;
    }
    if !h.crc {
        return Some(rest);
    }
    let (covered, sum) = pdu.split_last_chunk::<2>()?;
    let (fields, _) = rest.0.split_last_chunk::<2>()?;
    if u16::from_be_bytes(*sum) == crc(covered) {
        Some(Body(fields))
    } else {
        None
    }
}

pub fn size_width(h: Head) -> usize
    ensures { result ≤ 8 }
{
    if h.large { 8 } else { 4 }
}

// What is left of a body, taken from the front.
#[derive(Clone, Copy)]
pub struct Body<'a>(&'a [u8]);

impl Body<'_> {
    // The number in the next w bytes.
    pub fn next(&mut self, w: usize) -> Option<u64> {
        self.0.split_off(..w).map(number)
    }

    // Whether a run of bytes comes next.
    pub fn has(&mut self, run: &[u8]) -> bool {
        self.0.split_off(..run.len()) == Some(run)
    }

    // Whether a run of bytes comes next, behind a byte of length.
    pub fn has_name(&mut self, name: &[u8]) -> bool {
        self.next(1) == Some(name.len() as u64) && self.has(name)
    }

    pub fn is_over(&self) -> bool {
        self.0.is_empty()
    }
}
