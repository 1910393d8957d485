//! How many instructions the code of a program has.
//!
//! It promises the number of instructions of the image that the definitions give a checked tree, or that there are more than 200,000. It
//! makes no code, asks no static rule and runs nothing.
#![tactic(auto)]

mod adding;
mod calls;
mod communication;
mod exprs;
mod output;
mod phrases;
mod procedures;
mod program;
mod selects;
mod statements;

pub use adding::CountFault;
pub use program::count_instructions;
