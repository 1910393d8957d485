//! The reading of single tokens, with which every phrase of a program is read.
//!
//! A reading function takes the tokens that are left and gives what it read with the tokens behind it. It promises
//! exactly what its reader in the grammar gives: the same value, the same tokens behind it, or a halt for the same
//! reason with as many tokens left. The functions of this crate read one token each; the crates above read the lines
//! of the grammar with them. The crate knows no line of the grammar.
#![tactic(auto)]

mod tokens;

pub use tokens::{
    Halt, add_op, direction, expect_name, expect_sign, expect_word, first_place, is_word, literal,
    mul_op, name, number, plus_minus, relation, selector, sign, word,
};
