//! The events of a run, and unordered pairs of them.

use crate::{Accesses, Numbers, Things};

/// What one action of a run was.
#[derive(Drop)]
pub struct Event {
    /// the process that acted, by its number
    pub process: u32,
    /// the line of the action, from 1
    pub line: u32,
    /// whether this is main's first action after it waited at a `coend`
    pub joins: bool,
    /// the processes that the action made ready
    pub wakes: Numbers,
    /// the objects at which the action synchronised: of a select's deciding action those of all its open alternatives
    pub things: Things,
    /// the variables that the action read or wrote, a message and the value parameters of an accept among them
    pub accesses: Accesses,
}

/// Two events of a run by their numbers, counted from 1, that conflict and that nothing in the run orders.
#[derive(Clone, Copy, Debug, PartialEq, Eq)]
pub struct Race {
    pub first: u32,
    pub second: u32,
}
