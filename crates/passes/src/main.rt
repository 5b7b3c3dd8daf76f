// Runs the lists of calls of standard input, each on a fresh handler, and prints every answer. tests/make_passes.py makes the runs, and what must be
// printed from a model that shares nothing with the crates.
#![tactic(auto)]

use std::io;

// Stays: this and `beside_rust` differ in the last word alone, since the gate runs each program on its own stored runs.
fn main(rt: HostRuntime) -> io::Result<()> {
    // Stays: a fixed buffer, since of a longer input the first 65,536 bytes count.
    let mut buf = [0u8; 65536];
    let n = intake::read_full(&mut rt.stdin(), &mut buf)?;
    replay::all(&rt, &buf[..n], replay::Ids::Tagged)
}
