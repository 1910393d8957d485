//! The state of a program that runs by rewriting its source text, between two actions.
//!
//! It promises what the state stands for: how each process goes on, where it runs, what it shows to the others, and that a process which
//! goes on behind an action is the one of the definitions. It performs no action, and takes no text apart.
#![tactic(auto)]

mod activities;
mod changes;
mod hands;
mod source;
mod state;

pub use activities::{Activation, Activity, Caller, Doing, Mark};
pub use changes::Done;
pub use hands::{Hand, Offering};
pub use source::Source;
pub use state::State;
