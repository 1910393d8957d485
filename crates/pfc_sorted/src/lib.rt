//! Processes in the order of their keys.
//!
//! It promises that a process is put into a list, or taken out, at a place, in the room that is there, and says how a
//! sorted list is tied to the keys of its processes, which stand elsewhere. At either end of the list nobody else is
//! moved, and elsewhere the fewer of those before the place and behind it, two bytes for each. It knows neither the keys
//! nor their order.
#![tactic(auto)]

mod halving;
mod moves;

pub use halving::count_passing;
pub use moves::{put_in, take_out};
