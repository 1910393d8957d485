//! Laws of statements that hold statements, in which no static rule is broken. Each function does nothing: its contract is the law.
//!
//! It promises that all statements of a body have the shapes that their code needs.
#![tactic(auto)]

mod laws;

pub use laws::{guards_are_typed, statements_are_typed};
