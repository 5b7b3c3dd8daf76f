// A PDU's meaning in plain words.
use crate::code::{Finished, condition, refusal};
use crate::text::Name;
use pdu_read::directive::{Directive, read_body};
use pdu_read::field::size_width;
use pdu_read::header::read_header;
use pdu_read::nak::NakPduReader;
use std::fmt;
use stream::Stream;
use types::{Frame, Meaning, ReadError, Refusal, SegmentRequest};

// The fields of a body, one behind the other. What lies past the end is not there.
fn fields<'a>(pdu: &'a [u8], frame: Frame) -> Stream<'a> {
    Stream(pdu.get(frame.start..frame.end).unwrap_or(&[]))
}

// The condition in the upper half of a byte.
fn condition_in(fields: &mut Stream) -> &'static str {
    condition(fields.byte() / 16)
}

// ---- what the sender emits

#[derive(Clone, Copy)]
enum Emitted<'a> {
    FileData {
        offset: u64,
        end: u64,
    },
    Metadata {
        size: u64,
        source: Name<'a>,
        dest: Name<'a>,
    },
    Eof {
        condition: &'static str,
        sum: u64,
        size: u64,
    },
    AckOfFinished {
        condition: &'static str,
    },
    Another,
}

impl<'a> Emitted<'a> {
    fn read(pdu: &'a [u8]) -> Option<Self> {
        let frame = read_header(pdu)?;
        let fields = fields(pdu, frame);
        let large = frame.head.large;
        Some(if frame.filedata {
            Emitted::file_data(fields, large)
        } else {
            Emitted::directive(fields, large)
        })
    }

    fn file_data(mut fields: Stream<'a>, large: bool) -> Self {
        let offset = fields.number(size_width(large));
        let end = offset.saturating_add(fields.0.len() as u64);
        Emitted::FileData { offset, end }
    }

    fn directive(mut fields: Stream<'a>, large: bool) -> Self {
        match Directive::try_from(fields.byte()) {
            Ok(Directive::Eof) => {
                let condition = condition_in(&mut fields);
                let sum = fields.number(4);
                let size = fields.number(size_width(large));
                Emitted::Eof {
                    condition,
                    sum,
                    size,
                }
            }
            Ok(Directive::Ack) => {
                fields.byte();
                let condition = condition_in(&mut fields);
                Emitted::AckOfFinished { condition }
            }
            Ok(Directive::Metadata) => {
                fields.byte();
                let size = fields.number(size_width(large));
                let source = Name(fields.blob(1));
                let dest = Name(fields.blob(1));
                Emitted::Metadata { size, source, dest }
            }
            _ => Emitted::Another,
        }
    }
}

impl fmt::Display for Emitted<'_> {
    fn fmt<W: fmt::Write>(&self, f: &mut fmt::Formatter<W>) -> fmt::Result {
        match *self {
            Emitted::FileData { offset, end } => write!(f, "File data {offset}..{end}"),
            Emitted::Metadata { size, source, dest } => {
                write!(f, "Metadata \"{source}\" -> \"{dest}\", {size} bytes")
            }
            Emitted::Eof {
                condition,
                sum,
                size,
            } => write!(f, "EOF {condition}, {size} bytes, checksum {sum:08x}"),
            Emitted::AckOfFinished { condition } => write!(f, "ACK of Finished, {condition}"),
            Emitted::Another => f.write_str("another PDU"),
        }
    }
}

// An emitted PDU; a repair is marked.
#[derive(Clone, Copy)]
pub struct Sent<'a> {
    pub pdu: &'a [u8],
    pub repair: bool,
}

impl fmt::Display for Sent<'_> {
    fn fmt<W: fmt::Write>(&self, f: &mut fmt::Formatter<W>) -> fmt::Result {
        let again = if self.repair { ", again" } else { "" };
        match Emitted::read(self.pdu) {
            None => f.write_str("no PDU"),
            Some(emitted) => write!(f, "{emitted}{again}"),
        }
    }
}

// The checksum of an emitted EOF.
pub fn sum_of(pdu: &[u8]) -> Option<u64> {
    match Emitted::read(pdu)? {
        Emitted::Eof { sum, .. } => Some(sum),
        _ => None,
    }
}

// ---- what the receiver answers

// A delivered PDU, and what became of it.
#[derive(Clone, Copy)]
pub struct Received<'a> {
    pub pdu: &'a [u8],
    pub answer: Result<(), Refusal>,
}

impl Received<'_> {
    fn write_body<W: fmt::Write>(&self, f: &mut fmt::Formatter<W>, frame: Frame) -> fmt::Result {
        match read_body(self.pdu, frame) {
            Err(ReadError::Malformed) => f.write_str("no PDU"),
            Err(ReadError::CantProcess) => f.write_str("no PDU for a sender"),
            Ok(meaning) => self.write_meaning(f, frame, meaning),
        }
    }

    fn write_meaning<W: fmt::Write>(
        &self,
        f: &mut fmt::Formatter<W>,
        frame: Frame,
        meaning: Meaning,
    ) -> fmt::Result {
        match meaning {
            Meaning::Finished(v) => write!(f, "Finished, {}", Finished(v)),
            Meaning::AckOfEof => f.write_str("ACK of EOF"),
            Meaning::Nak(n) => self.write_requests(f, frame, n),
            Meaning::KeepAlive(progress) => write!(f, "Keep Alive {progress}"),
        }
    }

    // The first eight of the n requests of a NAK.
    fn write_requests<W: fmt::Write>(
        &self,
        f: &mut fmt::Formatter<W>,
        frame: Frame,
        n: usize,
    ) -> fmt::Result {
        let large = frame.head.large;
        let requests = NakPduReader {
            pdu: self.pdu,
            large,
            // behind the code and the scope
            at: frame.start.saturating_add(1 + 2 * size_width(large)),
            left: n.min(8),
        };
        f.write_str("NAK for")?;
        let mut first = true;
        for SegmentRequest { start, end } in requests {
            f.write_str(if first { " " } else { ", " })?;
            match (start, end) {
                (0, 0) => f.write_str("metadata")?,
                _ => write!(f, "{start}..{end}")?,
            }
            first = false;
        }
        f.write_str(if n > 8 { " and more" } else { "" })
    }
}

impl fmt::Display for Received<'_> {
    fn fmt<W: fmt::Write>(&self, f: &mut fmt::Formatter<W>) -> fmt::Result {
        match read_header(self.pdu) {
            None => f.write_str("no PDU")?,
            Some(frame) => self.write_body(f, frame)?,
        }
        if let Err(r) = self.answer {
            write!(f, ", refused: {}", refusal(r))?;
        }
        Ok(())
    }
}
