// Bytes and names as they are read.
ghost use Rattle.std.specs.Prelude.{◌≤◌};

use std::fmt;
use std::str::from_utf8;

const DIGITS: &[u8; 16] = b"0123456789abcdef";

// The digits of a piece's bytes, 32 at most, and how many they are.
fn put_digits(digits: &mut [u8; 64], piece: &[u8]) -> usize
    ensures { result ≤ 64 }
{
    let n = piece.len().min(32);
    for i in 0..n {
        let b = piece[i];
        digits[2 * i] = DIGITS[usize::from(b / 16)];
        digits[2 * i + 1] = DIGITS[usize::from(b % 16)];
    }
    2 * n
}

// Bytes in hex, in lower case.
#[derive(Clone, Copy)]
pub struct Hex<'a>(pub &'a [u8]);

impl fmt::Display for Hex<'_> {
    fn fmt<W: fmt::Write>(&self, f: &mut fmt::Formatter<W>) -> fmt::Result {
        // Stays: a fixed buffer for the digits of a few bytes, since a write for each byte costs more than its digits.
        let mut digits = [0u8; 64];
        for piece in self.0.chunks(32) {
            let n = put_digits(&mut digits, piece);
            f.write_str(from_utf8(&digits[..n]).map_err(|_| fmt::Error)?)?;
        }
        Ok(())
    }
}

// A name of a file, which is text: no put takes another. A character that a terminal would act on is shown as '?'.
#[derive(Clone, Copy)]
pub struct Name<'a>(pub &'a [u8]);

impl fmt::Display for Name<'_> {
    fn fmt<W: fmt::Write>(&self, f: &mut fmt::Formatter<W>) -> fmt::Result {
        for c in from_utf8(self.0).unwrap_or("?").chars() {
            f.write_char(if c.is_ascii_control() { '?' } else { c })?;
        }
        Ok(())
    }
}

// A line without its end: a mark, the first 4,096 bytes in hex, dots for the others, and the meaning, behind a blank at least, from column 44 on.
#[derive(Drop)]
pub struct HexLine<'a, D> {
    mark: &'a str,
    pdu: &'a [u8],
    meaning: D,
}

pub fn hex_line<'a, D>(mark: &'a str, pdu: &'a [u8], meaning: D) -> HexLine<'a, D> {
    HexLine { mark, pdu, meaning }
}

impl<D: fmt::Display> fmt::Display for HexLine<'_, D> {
    fn fmt<W: fmt::Write>(&self, f: &mut fmt::Formatter<W>) -> fmt::Result {
        let front = self.pdu.get(..4096).unwrap_or(self.pdu);
        let dots = if front.len() < self.pdu.len() {
            ".."
        } else {
            ""
        };
        let gap = 40usize.saturating_sub(front.len().saturating_mul(2));
        let mark = self.mark;
        let hex = Hex(front);
        let meaning = &self.meaning;
        write!(f, "{mark} {hex}{dots}{:gap$} {meaning}", "")
    }
}
