//! The code of expressions, of variables and of arguments follows the next action of its source text.
//!
//! It has no code of its own: its functions do nothing, and their contracts are the laws.
#![tactic(auto)]

mod laws;

pub use laws::{arguments_follow, expressions_follow, variables_follow};
