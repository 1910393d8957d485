//! Who is delayed at which object, by ranks.
//!
//! It promises that the first at an object, which is the one of least rank and at that rank of least ticket, is found by
//! a search by halves, and that no call but the one that takes the room takes memory. It knows nothing of what the
//! objects are.
#![tactic(auto)]

mod ranks;

pub use ranks::{Delay, Ranks};
