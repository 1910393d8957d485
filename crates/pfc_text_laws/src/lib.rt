//! What texts may hold: the numbers that their tokens write.
//!
//! It promises that what a text is cut to writes numbers of 32 bits alone, and chars that are bytes. It has no code.
#![tactic(auto)]

mod laws;

pub use laws::texts_write_small_numbers;
