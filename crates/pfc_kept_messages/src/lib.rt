//! Plain communication over channels keeps what it is for the machine to represent a configuration.
//!
//! It promises that a send and a receive do on the machine what they do in the source text: where a partner waits, in a plain statement or in a select, the
//! message passes and both go on; else the process waits, and offers what it waits for. It has no code.
#![tactic(auto)]

mod laws;

pub use laws::{receives_are_kept, sends_are_kept};
