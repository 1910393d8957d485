//! Laws of statements that hold no others, in which no static rule is broken. Each function does nothing: its contract is the law.
//!
//! It promises that their parts have the shapes that their code needs, wherever what is in view is that of a program in which no rule is broken.
#![tactic(auto)]

mod laws;

pub use laws::{calls_are_typed, items_are_typed, messages_are_typed, what_is_reached_is_known};
