//! The scanner: the tokens of a text.
//!
//! `scan` gives exactly the tokens of a text with their places, or the first refusal of its cutting.
//! It reads bytes, and knows nothing of what the tokens mean together.
#![tactic(auto)]

mod code;
mod comments;
mod cutting;
mod laws;
mod literals;
mod next;
mod numbers;
mod piece;
mod scanned;
mod signs;
mod words;

pub use cutting::scan;
pub use laws::{a_cutting_is_computed, one_cutting, tokens_are_small, tokens_are_written};
pub use scanned::{ScanFault, Scanned};
