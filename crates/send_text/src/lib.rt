// The words of the command line, and what the program `send` says.
#![tactic(auto)]

mod code;
mod decimal;
pub mod pdu;
pub mod tell;
pub mod text;
pub mod words;
