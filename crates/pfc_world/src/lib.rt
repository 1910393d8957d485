//! The table of processes: their standings, the tickets of their waits, the number of actions done, and the clock.
//!
//! It promises that each call changes exactly the standings that it names and leaves all others, that a
//! process waits with the ticket of the action that began its wait, that at most one process acts, and
//! that no call but the first takes memory. It knows no semaphore, channel, monitor or resource but by
//! number, and it never picks.
#![tactic(auto)]

mod answers;
mod found;
mod index;
mod laws;
mod lists;
mod lookups;
mod partners;
mod rows;
mod terminating;
mod walks;
mod world;

pub use answers::{After, Offer, Settled};
pub use laws::{first_is_the_least, settling_is_done_once, waits_are_kept};
pub use partners::Partner;
pub use pfc_state::{
    Arm, Created, Done, Ending, Idle, Ready, Running, ScriptWhy, Standing, State, Waiting, Why,
};
pub use world::World;
