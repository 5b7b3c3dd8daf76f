// The words of the command line. Any bytes at all are taken; what is no word, or no value of its word, is answered so.
ghost use Rattle.std.specs.Prelude.{◌≤◌, length};

use crate::decimal::number;
use std::rt::Env;

// How many bytes a word may have.
// Stays: a word is read into a fixed buffer of that length wherever it is looked at, so that no memory grows with the command line.
pub const LONGEST: usize = 4096;

// In which form PDUs are written: framed, in hex, or in hex with their meaning.
#[derive(Clone, Copy, PartialEq, Eq, PartialOrd, Ord)]
pub enum Form {
    Framed,
    Hex,
    Said,
}

// A word that gives the name of a file: which argument it is, and where the name begins in it.
#[derive(Clone, Copy)]
pub struct Named {
    pub argument: usize,
    pub start: usize,
}

// Argument 1, which is the name of the file to be sent.
pub const FILE: Named = Named {
    argument: 1,
    start: 0,
};

impl Named {
    // The name, read into a buffer. Where the argument is longer than that, it counts as an empty one.
    pub fn read<'b>(self, rt: &HostRuntime, word: &'b mut [u8]) -> &'b [u8]
        ensures { length result.now ≤ length word.old }
    {
        let n = rt.arg(self.argument, word).unwrap_or(0);
        word.get(self.start..n).unwrap_or(&[])
    }
}

// What the words ask for.
#[derive(Clone, Copy)]
pub struct Words {
    pub from: u64,
    pub to: u64,
    pub number: u64,
    pub idwidth: u8,
    pub seqwidth: u8,
    pub segment: u64,
    pub packet: u64,
    // none: the timer does not expire
    pub limit: Option<u8>,
    // steps a call, 0: no bursts
    // Stays: a count, as the word gives it.
    pub burst: u8,
    pub unacknowledged: bool,
    pub closure: bool,
    pub crc: bool,
    pub checksum: u8,
    pub form: Form,
    pub source: Option<Named>,
    pub dest: Option<Named>,
    pub out: Option<Named>,
    pub pcap: Option<Named>,
    pub answers: Option<Named>,
}

impl Default for Words {
    fn default() -> Self {
        Words {
            from: 1,
            to: 2,
            number: 7,
            idwidth: 1,
            seqwidth: 1,
            segment: 1024,
            packet: 1024,
            limit: None,
            burst: 0,
            unacknowledged: true,
            closure: false,
            crc: false,
            checksum: 0,
            form: Form::Framed,
            source: None,
            dest: None,
            out: None,
            pcap: None,
            answers: None,
        }
    }
}

// Why a word is not taken.
#[derive(Clone, Copy, PartialEq, Eq)]
pub enum BadWord {
    Unknown,
    Value,
}

impl Words {
    // Takes an argument in, whose bytes are the word. Of a word that is given twice the last one counts, but for the form, where the one that shows most
    // does.
    pub fn take(&mut self, argument: usize, word: &[u8]) -> Result<(), BadWord> {
        match word {
            b"--hex" => self.form = self.form.max(Form::Hex),
            b"--say" => self.form = Form::Said,
            _ => return self.take_value(argument, word),
        }
        Ok(())
    }

    // A word and its value, with the '=' between them.
    fn take_value(&mut self, argument: usize, word: &[u8]) -> Result<(), BadWord> {
        let Some(at) = word.iter().position(|b| *b == b'=') else {
            return Err(BadWord::Unknown);
        };
        let start = at + 1;
        self.set(&word[..at], &word[start..], Named { argument, start })
    }

    // A width and a limit are bytes, and a burst has at most sixteen steps.
    fn set(&mut self, key: &[u8], value: &[u8], given: Named) -> Result<(), BadWord> {
        match key {
            b"from" => self.from = any(value)?,
            b"to" => self.to = any(value)?,
            b"number" => self.number = any(value)?,
            b"idwidth" => self.idwidth = at_most(value, 8)?,
            b"seqwidth" => self.seqwidth = at_most(value, 8)?,
            b"segment" => self.segment = any(value)?,
            b"packet" => self.packet = any(value)?,
            b"limit" => self.limit = Some(at_most(value, 255)?),
            b"burst" => self.burst = at_most(value, 16)?,
            b"mode" => self.unacknowledged = chosen(value, b"acknowledged", b"unacknowledged")?,
            b"closure" => self.closure = chosen(value, b"no", b"yes")?,
            b"crc" => self.crc = chosen(value, b"no", b"yes")?,
            b"checksum" => self.checksum = checksum(value)?,
            b"source" => self.source = Some(given),
            b"dest" => self.dest = Some(given),
            b"out" => self.out = Some(given),
            b"pcap" => self.pcap = Some(given),
            b"answers" => self.answers = Some(given),
            _ => return Err(BadWord::Unknown),
        }
        Ok(())
    }
}

fn any(value: &[u8]) -> Result<u64, BadWord> {
    number(value).ok_or(BadWord::Value)
}

fn at_most(value: &[u8], most: u8) -> Result<u8, BadWord> {
    match u8::try_from(any(value)?) {
        Ok(n) if n <= most => Ok(n),
        _ => Err(BadWord::Value),
    }
}

fn chosen(value: &[u8], no: &[u8], yes: &[u8]) -> Result<bool, BadWord> {
    if value == yes {
        Ok(true)
    } else if value == no {
        Ok(false)
    } else {
        Err(BadWord::Value)
    }
}

// Document 01's numbers of the four types.
// Stays: a put takes the number, which an enum would only be turned into.
fn checksum(value: &[u8]) -> Result<u8, BadWord> {
    match value {
        b"modular" => Ok(0),
        b"crc32c" => Ok(2),
        b"crc32" => Ok(3),
        b"null" => Ok(15),
        _ => Err(BadWord::Value),
    }
}
