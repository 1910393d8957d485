//! Tests of the rules of synchronisation: semaphores and channels, monitors, rendezvous and selects, guarded resources.
//!
//! Each is a table of actions of five processes with the answers that are owed. The crate has nothing else.
#![tactic(auto)]

#[cfg(test)]
mod meetings;
#[cfg(test)]
mod messages;
#[cfg(test)]
mod monitors;
#[cfg(test)]
mod resources;
#[cfg(test)]
mod stage;
