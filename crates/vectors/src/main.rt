// Runs the vectors of standard input through the proved crates: one line for each, its label and 'ok' or 'differs'. What every writer wrote is
// held to the vector's bytes and taken apart by a decoder of its own. tests/make_vectors.py makes the vectors and says their format.
#![tactic(auto)]

mod decoder;
mod delivered;
mod metadata;
mod run;
mod take;
mod written;

use std::io;

fn main(rt: HostRuntime) -> io::Result<()> {
    // Stays: a fixed buffer, since of a longer input the first 65,536 bytes count.
    let mut buf = [0u8; 65536];
    let n = intake::read_full(&mut rt.stdin(), &mut buf)?;
    run::all(&rt, &buf[..n])
}
