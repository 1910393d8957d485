//! Actions of processes, each with the event that it was.
//!
//! It promises that the action is the one of the definitions, and that its event is what they say that it was for the order of the run. It
//! picks nobody, and keeps no event.
#![tactic(auto)]

mod acting;
mod joining;

pub use acting::{Walked, act_watched};
