//! Actions of one process that touch no object keep what it is for the machine to represent a configuration.
//!
//! It promises that the machine does what the action does in the source text, for reads, writes, the ways back of loops, output pieces, items of the input,
//! draws, questions for the input and the clock, and faults. It has no code.
#![tactic(auto)]

mod laws;

pub use laws::{
    draws_are_kept, faults_are_kept, input_is_kept, pieces_are_kept, questions_are_kept,
    reads_are_kept, turns_are_kept, writes_are_kept,
};
