//! The first values of main's variables, and the numbers of the objects among them.
//!
//! It promises that main's cells hold these values before the first action, that each object is found by its address, and that its number is one of its
//! kind. It has no code.
#![tactic(auto)]

mod laws;

pub use laws::{main_begins_with_its_values, objects_are_found, objects_have_kinds};
