//! All actions keep what it is for the machine to represent a configuration.
//!
//! It joins the crates of the kinds of actions, and says what of a program and of a run is still asked by some of them. It has no code.
#![tactic(auto)]

mod laws;

pub use laws::told_actions_are_kept;
