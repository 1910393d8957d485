//! What a program of source text does, action by action, for every construct of the language, and how a run ends.
//!
//! Its definitions are the meaning of the language: each file of `specs/` is a chapter. They know no instruction, no cell and no
//! address. Its code is the values that variables hold, and the first of them.
#![tactic(auto)]

mod first;
mod values;

pub use first::initial_value;
pub use values::{Location, Value};
