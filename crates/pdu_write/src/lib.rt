// A sender's PDUs written: in module body the whole PDU over any body, in header what stands before and behind it, and one module for each of the four bodies.
#![tactic(auto)]

pub mod ack;
pub mod body;
pub mod eof;
pub mod file_data;
mod header;
pub mod metadata;
