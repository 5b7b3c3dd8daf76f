// Runs a list of calls from standard input and writes the answers to standard output: four bytes of the file's length, the file, then the list
// as docs/HOST.md has it. Input of more than 65,536 bytes is cut there.
#![tactic(auto)]

use std::io;
use stream::Stream;

fn main(rt: HostRuntime) -> io::Result<()> {
    // Stays: a fixed buffer, since of a longer input the first 65,536 bytes count.
    let mut buf = [0u8; 65536];
    let n = intake::read_full(&mut rt.stdin(), &mut buf)?;
    let mut input = Stream(&buf[..n]);
    let file = input.blob(4);
    // Stays: a fixed space for the answers, of which `host` says what has room.
    let mut answers = [0u8; 65536];
    let k = host::tsendrivaty_run(input.0, file, &mut answers) as usize;
    rt.write_all(&answers[..k.min(answers.len())])
}
