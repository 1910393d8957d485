//! The state of a program before its first action.
//!
//! It promises that the state stands for the start of the definitions: every process with what is pending for it, the
//! table, all objects free, and main's variables. It performs no action.
#![tactic(auto)]

mod bodies;
mod counts;
mod processes;
mod starting;

pub use starting::at_start;
