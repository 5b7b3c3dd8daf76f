// Runs stored lists of calls, each on a fresh handler, and prints every answer: one line a call, and one for each step of a burst. tests/stream.py has the format of the stream. For the
// programs `passes` and `beside_rust`, which differ in where the runs and what must be printed come from.
#![tactic(auto)]

mod coded;
mod say;

use std::io;
use stream::Stream;

// How an event tells the source id and number: with their widths, or as the Rust does, and then a delivery's number is not told either.
#[derive(Clone, Copy)]
pub enum Ids {
    Tagged,
    ByValue,
}

fn one(rt: &impl Print, file: &[u8], coded: &[u8], ids: Ids) -> io::Result<()> {
    // Stays: fixed buffers, which `host` reads and writes; of a longer list only what has room is made.
    let mut calls = [0u8; 65536];
    let mut answers = [0u8; 65536];
    let n = coded::spread(coded, &mut calls).min(calls.len());
    let m = host::tsendrivaty_run(&calls[..n], file, &mut answers) as usize;
    say::lines(rt, &answers[..m.min(answers.len())], ids)
}

// A run is a label behind one byte of length, a file and a list behind four each.
pub fn all(rt: &impl Print, s: &[u8], ids: Ids) -> io::Result<()> {
    let mut runs = Stream(s);
    let mut count: u64 = 0;
    while !runs.is_empty() {
        let label = runs.blob(1);
        let file = runs.blob(4);
        let list = runs.blob(4);
        rt.write_all(label)?;
        println!(rt; "")?;
        one(rt, file, list, ids)?;
        count = count.saturating_add(1);
    }
    println!(rt; "{count} runs")
}
