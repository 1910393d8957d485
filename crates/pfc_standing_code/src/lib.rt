//! Where code stands for what a process has still to do.
//!
//! It says what it is for the code of a program to perform a remainder of source text at a place, and to lead quietly to its next
//! action. It has no code.
#![tactic(auto)]

mod laws;

pub use laws::{
    awaited_values_hold_no_object, callers_operands_are_kept, code_has_its_size, names_are_enough,
    names_stay_known, only_guards_are_tried, spots_have_one_word, values_hold_no_object,
};
