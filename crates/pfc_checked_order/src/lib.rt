//! Laws of the order of the parts of a program. Each function does nothing: its contract is the law.
//!
//! It promises that the parts of a program have an order, by the scopes with which they begin, and that each module is told by the scope of its part. It knows
//! no run.
#![tactic(auto)]

mod laws;

pub use laws::{blocks_stand_with_those_around, modules_are_told_by_their_scopes};
