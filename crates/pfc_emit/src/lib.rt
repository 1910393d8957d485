//! The growing code of a program: instructions with their lines, and jumps whose addresses are set when they are known.
//!
//! It promises that the instructions and lines come out as they were put, in their order, and that a patch changes the
//! address argument of one instruction and nothing else. It chooses no instruction, and knows no tree and no machine.
#![tactic(auto)]

mod addresses;
mod emitter;

pub use emitter::{EmitFault, Emitter};
