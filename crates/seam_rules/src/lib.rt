// What is right of the handler in memory that a host lends: what each of the seven calls returns and leaves there (specs/Seam.antt), and what follows from it
// (specs/Follows.antt). What the memory means: specs/Memory.antt; that nothing is lost in it: specs/Kept.antt. The
// code is crate `seam`. No code runs here.
#![tactic(auto)]

pub mod memory;
