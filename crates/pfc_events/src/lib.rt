//! What an action was, told by the state that a program is in before and behind it.
//!
//! It promises that the event told is the one of the definitions: the variables that the action reads or writes, the objects at which it
//! synchronises, and whom it makes ready. It performs no action.
#![tactic(auto)]

mod accesses;
mod choosing;
mod events;
mod partners;
mod places;
mod sides;
mod things;
mod wakes;

pub use events::{Coming, foretell, happened};
