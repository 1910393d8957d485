//! Static scoping: which blocks are around one that is called.
//!
//! It promises that a block is nested in one that calls it as its static link says, in every lawful program. It has no code.
#![tactic(auto)]

mod laws;

pub use laws::{program_blocks_are_nested, reached_blocks_are_nested};
