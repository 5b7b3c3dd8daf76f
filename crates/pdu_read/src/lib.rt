// A delivery read: its header, then the body that its directive code picks, one module for each.
#![tactic(auto)]

mod ack;
mod condition;
pub mod directive;
pub mod field;
mod finished;
pub mod header;
mod keep_alive;
pub mod nak;
