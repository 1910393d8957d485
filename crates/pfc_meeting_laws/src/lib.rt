//! Meetings: what a process sees in the statements of its accepts.
//!
//! It promises that the parameters of an accept that is open are seen in the cells to which a caller's arguments go, that the stacks hold the store in
//! which they have the caller's values, and that the others see what they saw. It has no code.
#![tactic(auto)]

mod laws;

pub use laws::{accepts_stand_in_layouts, meetings_are_held, processes_see_open_accepts};
