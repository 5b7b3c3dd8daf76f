// What all crates share: a choice by a flag (specs/Pick), numbers in bytes, highest byte first (specs/Bytes), bytes laid over a buffer (specs/Laid), and their
// laws; in module `fields` the code over them.
#![tactic(auto)]

pub mod fields;
