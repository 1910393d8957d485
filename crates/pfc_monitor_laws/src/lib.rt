//! Laws of monitors in a program: whose each condition is, and how many there are.
//!
//! It promises that the conditions among a monitor's variables are that monitor's, and that a program has no more monitors than tokens. It has no code.
#![tactic(auto)]

mod laws;

pub use laws::{conditions_are_of_their_monitors, monitors_are_few};
