//! The machine before its first instruction represents the start of the source text.
//!
//! It promises so of each program in which no rule is broken, part by part: its cells, what main sees, what main's code does, and the other processes. It has
//! no code.
#![tactic(auto)]

mod laws;

pub use laws::{main_is_at_its_level, stacks_hold_the_first_values, start_is_represented};
