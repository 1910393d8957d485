//! How many instructions an action takes. Each function does nothing; its contract is the law.
//!
//! It promises a bound by the tree of the program for the quiet instructions of a process up to its next action. It runs nothing.
#![tactic(auto)]

mod laws;

pub use laws::actions_take_few_instructions;
