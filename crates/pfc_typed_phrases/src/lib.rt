//! Laws of expressions, variables and arguments in which no static rule is broken. Each function does nothing: its contract is the law.
//!
//! It promises that they have types, and the shapes of those types, wherever the names in view are those of a program in which no rule is broken.
#![tactic(auto)]

mod laws;

pub use laws::{arguments_are_typed, expressions_are_typed, names_are_known, variables_are_typed};
