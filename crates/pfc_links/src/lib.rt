//! Lists of processes in the order of tickets.
//!
//! It promises that who is first, next, before or last in a list is found in one look, that a process is put
//! at the end of a list and taken out anywhere without a walk, and that no call but the one that makes the
//! lists takes memory. It knows nothing of what the lists are for.
#![tactic(auto)]

mod links;

pub use links::{Links, Member};
