//! Tests of the blocks of checked trees: a text with what is known of each of its bodies, which was worked out by hand.
//!
//! The crate has nothing else.
#![tactic(auto)]

#[cfg(test)]
mod blocks;
