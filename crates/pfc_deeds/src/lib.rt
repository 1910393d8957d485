//! The actions of a process that touch no other process and no object.
//!
//! It promises that each is the action of the definitions: what it changes, what it writes, and in which fault it ends. An action that needs
//! memory and is refused changes nothing, and what it was given is given back.
#![tactic(auto)]

mod input;
mod output;
mod plain;
mod variables;

pub use input::{asks_eof, asks_eoln, inputs, skips};
pub use output::prints;
pub use plain::{asks_clock, draws, faults, turns};
pub use variables::{reads, writes};
