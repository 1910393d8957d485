//! The actions of a process that wait at an object, or change one: semaphores, time, the wait at `coend`, monitors and their conditions.
//!
//! It promises that each is the action of the definitions: what it does to the standings, the counts and the holders, that a process which
//! waits is behind its statement when it is ready, and in which fault the action ends. None of them takes memory or writes a byte. What never
//! comes in a run, as a semaphore that is none, counts as want of memory: nothing is changed, and what the action was given is given back.
#![tactic(auto)]

mod conditions;
mod going;
mod numbers;
mod rules;
mod semaphores;
mod time;

pub use conditions::{asks_empty, delays, resumes};
pub use going::go_on_when_ready;
pub use rules::{block_by, end_turn, enter_by, leave_by};
pub use semaphores::{initials, signals, waits};
pub use time::{joins, sleeps};
