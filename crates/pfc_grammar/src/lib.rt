//! The reading of programs: for each rule of the grammar a reader, a function on lists of kinds, and the laws of these
//! readers. A program's reader is exact: it gives the one tree that writes the kinds, or the syntax fault of the kinds.
//! Beside each reader of kinds stands one of tokens, whose tree keeps their places, with the same laws.
//!
//! It promises the floor above that a parser which gives what the readers give is right. It has no code of its own:
//! its functions do nothing, and their contracts are the laws.
#![tactic(auto)]

mod laws;

pub use laws::{
    a_program_begins_no_other, a_program_has_one_tree, a_reading_is_exact,
    a_reading_of_tokens_is_exact, a_text_has_one_tree, a_tree_of_tokens_is_read,
};
