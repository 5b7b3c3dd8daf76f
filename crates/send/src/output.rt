// Where PDUs go, and in which form.
use crate::capture;
use send_text::pdu::{Received, Sent};
use send_text::text::{Hex, hex_line};
use send_text::words::Form;
use std::fmt::Display;
use std::fs::File;
use std::io;
use std::io::{Cursor, Write};
use types::Refusal;

// How many bytes are written at once at most: a line has 3 + 8,192 + 2 before its meaning, which has under 1,200, and no PDU that leaves is longer than
// 4,096.
const MOST: usize = 10240;

// The output (none: standard output) and its form, the capture, and the space in which all that one call writes is put together first.
// Stays: a space of fixed length, so that no pass ends for want of memory, and none is made anew for each PDU.
#[derive(Clone, Copy)]
pub struct Output<'a> {
    pub rt: &'a HostRuntime,
    form: Form,
    file: Option<&'a File>,
    capture: Option<&'a File>,
    space: [u8; MOST],
}

// A PDU behind two bytes of its length, highest first, in front of space, and how many bytes that is.
fn lay_framed(space: &mut [u8], pdu: &[u8]) -> io::Result<u64> {
    let mut out = Cursor::new(space);
    out.write_all(&pdu.len().to_be_bytes()[6..])?;
    out.write_all(pdu)?;
    Ok(out.position())
}

fn lay_line<D: Display + Drop>(space: &mut [u8], line: D) -> io::Result<u64> {
    let mut out = Cursor::new(space);
    writeln!(out, "{line}")?;
    Ok(out.position())
}

impl<'a> Output<'a> {
    pub fn new(
        rt: &'a HostRuntime,
        form: Form,
        file: Option<&'a File>,
        capture: Option<&'a File>,
    ) -> Self {
        Output {
            rt,
            form,
            file,
            capture,
            space: [0; MOST],
        }
    }

    // Writes the first n bytes of the space.
    fn put(&self, n: u64) -> io::Result<()> {
        let bytes = self.space.get(..n as usize).unwrap_or(&[]);
        match self.file {
            None => self.rt.stdout().write_all(bytes),
            Some(mut file) => file.write_all(bytes),
        }
    }

    fn put_framed(&mut self, pdu: &[u8]) -> io::Result<()> {
        let n = lay_framed(&mut self.space, pdu)?;
        self.put(n)
    }

    fn put_line<D: Display + Drop>(&mut self, line: D) -> io::Result<()> {
        let n = lay_line(&mut self.space, line)?;
        self.put(n)
    }

    // A PDU that leaves.
    pub fn write(&mut self, pdu: &[u8], repair: bool) -> io::Result<()> {
        match self.form {
            Form::Framed => self.put_framed(pdu),
            Form::Hex => self.put_line(Hex(pdu)),
            Form::Said => self.put_line(hex_line("->", pdu, Sent { pdu, repair })),
        }
    }

    // With the meaning, what comes is shown too.
    pub fn show(&mut self, pdu: &[u8], answer: Result<(), Refusal>) -> io::Result<()> {
        if self.form != Form::Said {
            return Ok(());
        }
        self.put_line(hex_line("<-", pdu, Received { pdu, answer }))
    }

    // PDU number k of the pass, counted from 0, whole in the capture; nothing where there is none.
    pub fn keep(&mut self, k: u64, pdu: &[u8]) -> io::Result<()> {
        let Some(file) = self.capture else {
            return Ok(());
        };
        capture::keep(file, k, pdu, &mut self.space)
    }
}
