// Lines to standard error: what is wrong, how far the pass is, what came of it. Each is put together first and written by one call, but for one with a
// word longer than any that the program takes. Where standard error takes none, the program goes on.
ghost use Rattle.std.specs.Prelude.{◌≡◌};
ghost use Rattle.send_text.specs.declared.tell.Wrong.{Wrong};
ghost use Rattle.send_text.specs.declared.tell.WrongAt.{WrongAt};

use crate::code;
use crate::code::Finished;
use crate::words::{BadWord, LONGEST, Named};
use std::alloc::AllocError;
use std::fmt::{Display, InlineText};
use std::io::{Cursor, Error, Write};
use std::{fmt, io};
use types::{Events, Fault, Refusal, TransactionStep};

// A line of the program's own.
pub fn line<D: Display + Drop>(rt: &HostRuntime, text: D) {
    let _ = eprintln!(rt; "send: {text}");
}

// ---- what is wrong

// Why a pass is not made. A word and a file stand here as they came.
#[derive(Clone, Copy)]
pub enum Wrong<'a> {
    // how many bytes a word may have
    LongWord(usize),
    Word(&'a [u8], BadWord),
    File(&'a [u8], Error),
    // how many bytes it may have
    LargeFile(&'a [u8], usize),
    CutAnswer,
    Put(Refusal),
    Capture(Error),
    NoMemory,
}

impl From<AllocError> for Wrong<'_> {
    ghost from_gives = { λ _ w. w ≡ Wrong.NoMemory };

    fn from(_e: AllocError) -> Self {
        Self::NoMemory
    }
}

impl From<Refusal> for Wrong<'_> {
    ghost from_gives = { λ r w. w ≡ Wrong.Put r };

    fn from(r: Refusal) -> Self {
        Self::Put(r)
    }
}

pub fn complain(rt: &HostRuntime, w: Wrong<'_>) {
    match w {
        Wrong::LongWord(most) => long_word(rt, most),
        Wrong::Word(word, e) => word.about(rt, bad_word(e), ""),
        Wrong::File(word, e) => failed(rt, word, e),
        Wrong::LargeFile(word, most) => large_file(rt, word, most),
        Wrong::CutAnswer => cut_answer(rt),
        Wrong::Put(r) => refused(rt, "put", r),
        Wrong::Capture(e) => cut_short(rt, "capture", 0, e),
        Wrong::NoMemory => line(rt, "out of memory"),
    }
}

// The same of the command line: a word and a file stand here by the number of their argument.
// Stays: a type beside Wrong, since a program that reads a word when it is needed has no bytes to hand on.
#[derive(Clone, Copy)]
pub enum WrongAt {
    LongWord,
    Word(usize, BadWord),
    File(usize, Error),
    // how many bytes it may have
    LargeFile(usize, usize),
    CutAnswer,
    Put(Refusal),
    Capture(Error),
}

impl From<Refusal> for WrongAt {
    ghost from_gives = { λ r w. w ≡ WrongAt.Put r };

    fn from(refusal: Refusal) -> Self {
        Self::Put(refusal)
    }
}

pub fn complain_at(rt: &HostRuntime, w: WrongAt) {
    match w {
        WrongAt::LongWord => long_word(rt, LONGEST),
        WrongAt::Word(i, e) => i.about(rt, bad_word(e), ""),
        WrongAt::File(i, e) => failed(rt, i, e),
        WrongAt::LargeFile(i, most) => large_file(rt, i, most),
        WrongAt::CutAnswer => cut_answer(rt),
        WrongAt::Put(r) => refused(rt, "put", r),
        WrongAt::Capture(e) => cut_short(rt, "capture", 0, e),
    }
}

// ---- a word or a file in a line, as it came, which need be no text

// By its bytes, or by the number of its argument.
trait Subject: Copy {
    fn about<D: Display + Drop>(self, rt: &HostRuntime, before: &str, after: D);
}

impl Subject for &[u8] {
    // Stays: a fixed buffer, so that what is wrong is said without a heap. A word of at most 4,096 bytes has room, with under 512 about it; a line that has
    // none is written piece by piece.
    fn about<D: Display + Drop>(self, rt: &HostRuntime, before: &str, after: D) {
        let mut out = Cursor::new([0u8; 4608]);
        if joined(&mut out, before, self, &after).is_ok() {
            let n = out.position() as usize;
            let _ = rt.stderr().write_all(out.get_ref().get(..n).unwrap_or(&[]));
        } else {
            let _ = joined(&mut rt.stderr(), before, self, &after);
        }
    }
}

impl Subject for usize {
    fn about<D: Display + Drop>(self, rt: &HostRuntime, before: &str, after: D) {
        let mut space = [0u8; LONGEST];
        let named = Named {
            argument: self,
            start: 0,
        };
        named.read(rt, &mut space).about(rt, before, after);
    }
}

fn joined<D: Display, W: Write>(
    out: &mut W,
    before: &str,
    word: &[u8],
    after: &D,
) -> io::Result<()> {
    write!(out, "send: {before}")?;
    out.write_all(word)?;
    writeln!(out, "{after}")
}

fn long_word(rt: &HostRuntime, most: usize) {
    line(rt, format_args!("a word is longer than {most} bytes"));
}

// What stands before a bad word.
fn bad_word(e: BadWord) -> &'static str {
    match e {
        BadWord::Unknown => "unknown word: ",
        BadWord::Value => "bad value: ",
    }
}

fn large_file<S: Subject>(rt: &HostRuntime, file: S, most: usize) {
    file.about(rt, "", format_args!(": larger than {most} bytes"));
}

// Why the system refuses something, in its words, without the number that std sets behind them.
#[derive(Clone, Copy)]
struct Reason(Error);

impl fmt::Display for Reason {
    fn fmt<W: fmt::Write>(&self, f: &mut fmt::Formatter<W>) -> fmt::Result {
        // std's words have at most 256 bytes
        let text = InlineText::<288>::of(self.0);
        let words = text.as_str();
        f.write_str(
            words
                .split_once(" (os error ")
                .map_or(words, |(words, _)| words),
        )
    }
}

fn cut_answer(rt: &HostRuntime) {
    line(rt, "the last answer is cut short; nothing was sent");
}

// A file that the system refuses, with its reason.
fn failed<S: Subject>(rt: &HostRuntime, file: S, e: Error) {
    let reason = Reason(e);
    file.about(rt, "", format_args!(": {reason}"));
}

// A write failed: how much there is of the output or the capture, and the system's reason.
pub fn cut_short(rt: &HostRuntime, what: &str, pdus: u64, e: Error) {
    let reason = Reason(e);
    line(
        rt,
        format_args!("the {what} ends after {pdus} whole PDUs: {reason}"),
    );
}

pub fn refused<D: Display + Drop>(rt: &HostRuntime, what: D, r: Refusal) {
    line(rt, format_args!("{what} refused: {}", code::refusal(r)));
}

// ---- events

fn fault(rt: &HostRuntime, f: Fault) {
    let condition = code::condition(f.condition);
    let progress = f.progress;
    let action = code::action(f.action);
    line(
        rt,
        format_args!("fault: {condition} at {progress} bytes: {action}"),
    );
}

// The events of a step, in their order; timers are the loop's business.
pub fn events(rt: &HostRuntime, e: Events) {
    if e.transaction {
        let source = e.id.0.1;
        let number = e.id.1.1;
        line(
            rt,
            format_args!("transaction begun, source {source} number {number}"),
        );
    }
    if e.eofsent {
        line(rt, "EOF sent");
    }
    if let Some(f) = e.fault {
        fault(rt, f);
    }
    if let Some(v) = e.finished {
        line(rt, format_args!("finished: {}", Finished(v)));
    }
}

// ---- the end

// What has left so far; the checksum is that of the last EOF.
#[derive(Clone, Copy, Default)]
pub struct Tally {
    pub pdus: u64,
    pub bytes: u64,
    pub repairs: u64,
    pub sum: Option<u64>,
}

impl fmt::Display for Tally {
    fn fmt<W: fmt::Write>(&self, f: &mut fmt::Formatter<W>) -> fmt::Result {
        let Tally {
            pdus,
            bytes,
            repairs,
            sum,
        } = *self;
        write!(f, "{pdus} PDUs, {bytes} bytes, {repairs} repairs, ")?;
        match sum {
            Some(sum) => write!(f, "checksum {sum:08x}"),
            None => f.write_str("no EOF"),
        }
    }
}

// What the handler still waits for.
pub fn waits(rt: &HostRuntime, step: TransactionStep) {
    match step {
        TransactionStep::Idle => {}
        TransactionStep::SendingMetadata => line(rt, "stopped before the metadata"),
        TransactionStep::SendingFileData => line(rt, "stopped before the last file data"),
        TransactionStep::SendingEof => line(rt, "stopped before the EOF"),
        TransactionStep::WaitingForEofAck => line(rt, "still waiting for the ACK of EOF"),
        TransactionStep::WaitingForFinished => line(rt, "still waiting for Finished"),
        TransactionStep::Closing => line(rt, "stopped before the end"),
    }
}

pub fn usage(rt: &HostRuntime) {
    let _ = eprintln!(rt;
        "usage: send FILE [from=1] [to=2] [number=7] [idwidth=1] [seqwidth=1] [mode=unacknowledged|acknowledged]\n    \
         [closure=yes|no] [crc=yes|no] [checksum=modular|crc32c|crc32|null] [segment=1024] [packet=1024]\n    \
         [source=NAME] [dest=NAME] [limit=N] [burst=N] [out=FILE] [pcap=FILE] [answers=FILE] [--hex] [--say]"
    );
}

#[cfg(test)]
mod tests {
    use super::*;

    // No test has these words on its command line. What is expected is sought in standard error.
    #[should_panic(expected = "send: unknown word: burts=4")]
    #[test]
    fn says_a_word(rt: HostRuntime) {
        complain(&rt, Wrong::Word(b"burts=4", BadWord::Unknown));
        panic!(rt; "the line stands above")
    }

    #[should_panic(expected = "send: bad value: burst=17")]
    #[test]
    fn says_a_value(rt: HostRuntime) {
        complain(&rt, Wrong::Word(b"burst=17", BadWord::Value));
        panic!(rt; "the line stands above")
    }

    #[should_panic(expected = "send: a word is longer than 77 bytes")]
    #[test]
    fn says_how_long_a_word_may_be(rt: HostRuntime) {
        complain(&rt, Wrong::LongWord(77));
        panic!(rt; "the line stands above")
    }

    #[should_panic(expected = "send: notes: it grew")]
    #[test]
    fn says_a_file(rt: HostRuntime) {
        complain(&rt, Wrong::File(b"notes", Error::other("it grew")));
        panic!(rt; "the line stands above")
    }

    // A name for which the buffer has no room.
    fn long_name() -> [u8; 5000] {
        let mut name = [b'x'; 5000];
        name[0] = b'a';
        name[4999] = b'z';
        name
    }

    #[should_panic(expected = "send: ax")]
    #[test]
    fn says_a_long_name_from_its_start(rt: HostRuntime) {
        complain(&rt, Wrong::LargeFile(&long_name(), 65536));
        panic!(rt; "the line stands above")
    }

    #[should_panic(expected = "xz: larger than 65536 bytes")]
    #[test]
    fn says_a_long_name_to_its_end(rt: HostRuntime) {
        complain(&rt, Wrong::LargeFile(&long_name(), 65536));
        panic!(rt; "the line stands above")
    }

    #[should_panic(expected = "send: the last answer is cut short; nothing was sent")]
    #[test]
    fn says_a_cut_answer(rt: HostRuntime) {
        complain(&rt, Wrong::CutAnswer);
        panic!(rt; "the line stands above")
    }

    #[should_panic(expected = "send: put refused: 1 AlreadyBusy")]
    #[test]
    fn says_a_refusal(rt: HostRuntime) {
        complain(&rt, Wrong::from(Refusal::AlreadyBusy));
        panic!(rt; "the line stands above")
    }

    #[should_panic(expected = "send: the capture ends after 0 whole PDUs: no room")]
    #[test]
    fn says_a_capture(rt: HostRuntime) {
        complain(&rt, Wrong::Capture(Error::other("no room")));
        panic!(rt; "the line stands above")
    }

    #[should_panic(expected = "send: out of memory")]
    #[test]
    fn says_that_memory_is_out(rt: HostRuntime) {
        complain(&rt, Wrong::from(AllocError));
        panic!(rt; "the line stands above")
    }
}
