// The C function of crate `host`, for test hosts in C or Rust: docs/HOST.md has the format of calls and answers.
#![tactic(auto)]

// Runs the calls over the file and answers how many bytes of `answers` were written. The last two of them are 255 and the status.
#[unsafe(no_mangle)]
pub extern "C" fn tsendrivaty_run(calls: &[u8], file: &[u8], answers: &mut [u8]) -> u64 {
    host::tsendrivaty_run(calls, file, answers)
}
