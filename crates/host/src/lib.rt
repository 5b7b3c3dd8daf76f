// A list of calls, given as bytes, run on a fresh handler; every answer, emitted PDU and event goes into a lent buffer. For a test host in C or
// Rust (crate `host_c`), and for the program `drive`. docs/HOST.md has the format of both.
#![tactic(auto)]

pub mod kind;
mod read;
mod run;
mod stop;
mod write;

// Runs the calls over the file and answers how many bytes of `answers` were written. The last two of them are 255 and the status.
// Stays: three buffers, as C lends them.
pub fn tsendrivaty_run(calls: &[u8], file: &[u8], answers: &mut [u8]) -> u64 {
    run::run(calls, file, answers)
}
