// From the words to the summary: nothing is written before all is well.
use crate::frames::Frames;
use crate::output::Output;
use crate::run::{Given, Pass};
use crate::{capture, files, put};
use send_text::tell;
use send_text::tell::WrongAt;
use send_text::words::{FILE, LONGEST, Words};
use std::env::FillError;
use std::fs::File;
use std::rt::Env;
use types::State;

// Argument 0 is the program and 1 the file, unless a call for help takes its place.
pub fn command(rt: &HostRuntime) -> Result<(), WrongAt> {
    if helps(rt) {
        tell::usage(rt);
        return Ok(());
    }
    with_words(rt, words_in(rt)?)
}

// There is no file, or a call for help in its place.
fn helps(rt: &HostRuntime) -> bool {
    let mut word = [0u8; LONGEST];
    match rt.arg(1, &mut word) {
        Ok(n) => &word[..n] == b"--help".as_slice(),
        Err(FillError::TooLong) => false,
        Err(FillError::NotPresent) => true,
    }
}

// After a wrong word the others are not looked at.
// Stays: a count, and a fixed buffer for one word at a time: std's `args` takes no word that is not text, and holds all of them.
fn words_in(rt: &HostRuntime) -> Result<Words, WrongAt> {
    let mut w = Words::default();
    let mut word = [0u8; LONGEST];
    for i in 2..usize::MAX {
        match rt.arg(i, &mut word) {
            Ok(n) => w.take(i, &word[..n]).map_err(|e| WrongAt::Word(i, e))?,
            Err(FillError::TooLong) => return Err(WrongAt::LongWord),
            Err(FillError::NotPresent) => break,
        }
    }
    Ok(w)
}

// Stays: fixed buffers for the file and the answers, so that a pass needs no heap.
fn with_words(rt: &HostRuntime, w: Words) -> Result<(), WrongAt> {
    let mut space = [0u8; 1048576];
    with_space(rt, w, &mut space)
}

fn with_space(rt: &HostRuntime, w: Words, space: &mut [u8; 1048576]) -> Result<(), WrongAt> {
    let mut answers_space = [0u8; 65536];
    let file = files::load(rt, FILE, space)?;
    let answers = files::load_if(rt, w.answers, &mut answers_space)?;
    with_files(rt, w, file, answers)
}

fn with_files<'a>(
    rt: &HostRuntime,
    w: Words,
    file: &'a [u8],
    answers: &'a [u8],
) -> Result<(), WrongAt> {
    let answers = Frames(answers);
    let count = answers.count().ok_or(WrongAt::CutAnswer)?;
    let state = put::put(rt, w, file.len())?;
    let given = Given {
        file,
        answers,
        count,
        timed: w.limit.is_some(),
        burst: w.burst,
    };
    with_state(rt, w, given, state)
}

// Stays: words, what is given and the state go on apart: each function takes what the next one needs, and the last ones take them into a pass.
// The output is opened last, when all else is well; where it is none, that is said before the capture is closed.
fn with_state(rt: &HostRuntime, w: Words, given: Given<'_>, state: State) -> Result<(), WrongAt> {
    let capture = w.pcap.map(|named| capture::open(rt, named)).transpose()?;
    if let Err(e) = with_capture(rt, w, given, state, capture.as_ref()) {
        tell::complain_at(rt, e);
    }
    close(rt, capture, "capture");
    Ok(())
}

fn with_capture<'a>(
    rt: &'a HostRuntime,
    w: Words,
    given: Given<'_>,
    state: State,
    capture: Option<&'a File>,
) -> Result<(), WrongAt> {
    let file = w.out.map(|named| files::open_over(rt, named)).transpose()?;
    let output = Output::new(rt, w.form, file.as_ref(), capture);
    pass(given, output, state);
    close(rt, file, "output");
    Ok(())
}

fn pass<'a>(given: Given<'a>, output: Output<'a>, state: State) {
    let rt = output.rt;
    let all = given.count;
    let mut pass = Pass::new(given, output, state);
    pass.go();
    let tally = pass.tally;
    tell::line(rt, format_args!("{tally}"));
    tell::waits(rt, pass.state.step);
    let left = all.saturating_sub(pass.delivered);
    if left > 0 {
        tell::line(rt, format_args!("{left} of {all} answers were not used"));
    }
}

// std closes a file and says nothing of it, so what the system held back is asked for first.
fn close(rt: &HostRuntime, file: Option<File>, what: &str) {
    if file.as_ref().is_some_and(|file| !files::settled(file)) {
        tell::line(
            rt,
            format_args!("the {what} could not be closed, so it may lack PDUs"),
        );
    }
}
