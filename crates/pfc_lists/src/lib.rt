//! Sets of small numbers, as bits.
//!
//! It promises that a set holds exactly the numbers that were put in and not taken out, and that no
//! call but the one that makes a set takes memory. It knows nothing of what the numbers stand for.
#![tactic(auto)]

mod numbers;
mod words;

pub use numbers::Numbers;
