//! Tests of the machine of all processes: the room that activations take, machines before their first instruction, quiet instructions, and
//! actions: those that touch no object, messages, meetings and selects, on semaphores and conditions, calls and returns, and on a resource.
//!
//! Each is a table of calls with the answers that are owed. The crate has nothing else.
#![tactic(auto)]

#[cfg(test)]
mod actions;
#[cfg(test)]
mod calls;
#[cfg(test)]
mod machines;
#[cfg(test)]
mod meetings;
#[cfg(test)]
mod messages;
#[cfg(test)]
mod objects;
#[cfg(test)]
mod pairs;
#[cfg(test)]
mod quiet;
#[cfg(test)]
mod resources;
#[cfg(test)]
mod rooms;
#[cfg(test)]
mod scripts;
#[cfg(test)]
mod selects;
#[cfg(test)]
mod stage;
