//! The strings and the selects of statements that give no code.
//!
//! Statements behind `terminate` are never reached, and give no code; but their strings have numbers, and their selects count. It promises
//! that exactly these strings are kept, in the order of the text, and that each select's alternatives are counted, as the definition of the
//! image has it. It puts no instruction, so its only refusal is want of memory.
#![tactic(auto)]

mod calls;
mod counts;
mod statements;

pub use statements::keep_unseen;
