//! Actions on semaphores and conditions.
//!
//! It promises that each does what the rules of its object say of the process that acts, or ends in its fault and changes nothing. The process
//! has acted then, and is ready unless it waits; behind a wait it is at its next instruction. That the action is counted, and its line, are its
//! caller's. None of them takes memory.
#![tactic(auto)]

mod conditions;
mod operands;
mod semaphores;
mod turns;

pub use conditions::{ask_empty, delay, resume};
pub use semaphores::{initialise, signal, wait};
pub use turns::end_turn;
