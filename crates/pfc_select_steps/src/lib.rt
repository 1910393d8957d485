//! The alternatives of a `select`, gone through one part at a time, up to the action that comes next.
//!
//! It promises that the list of the alternatives, each step of going through them, and each place where a part of one has its value, its
//! variable or its end, comes to the action that the definitions of meaning say. Where memory is refused, all that was at hand is given
//! back, standing for the same. It knows no variable's value, and no other process.
#![tactic(auto)]

mod alternatives;
mod arrivals;
mod communication;
mod locations;
mod offers;
mod through;

pub use alternatives::begin;
pub use arrivals::{go_through, offer_value, offer_wait, open_if};
pub use communication::accepting;
pub use locations::{reach_from, reach_into, reach_to};
pub use through::{guarded, next, opened, replicated};
