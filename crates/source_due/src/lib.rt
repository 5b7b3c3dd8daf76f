// What a step does, before anything is changed: which of document 01's cases is due, the PDU of that case, and its bytes in front of the out buffer.
// After cfdp-rs 0.3.0, src/source.rs (Apache-2.0); changed, see NOTICE.
#![tactic(auto)]

pub mod due;
pub mod emit;
pub mod sending;
