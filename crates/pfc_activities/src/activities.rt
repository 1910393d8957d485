//! Processes with their activations.

use crate::Hand;
use pfc_pending::{At, Pending};
use pfc_program::Names;
use pfc_store::Display;

/// What a process is at: the names in view, the line of its statement, what is at hand, and what is pending behind it, the innermost
/// last.
#[derive(Drop)]
pub struct Doing<'t> {
    pub names: Names,
    pub line: u32,
    pub at: At<'t>,
    pub pending: Vec<Pending<'t>>,
}

/// By what the end of an activation is followed: nothing, the leaving of a monitor, or a scan of a resource.
#[derive(Clone, Copy)]
pub enum Mark {
    Plain,
    Monitor(u32),
    Resource(u32),
}

/// What waits for the end of an activation: nobody where it is the first of its process; a statement, with its names in view and what is
/// pending behind it; or an expression that waits for the result of a function, with its line, too.
#[derive(Drop)]
pub enum Caller<'t> {
    Nobody,
    Remainder(Names, Vec<Pending<'t>>),
    Value(Names, u32, Vec<Pending<'t>>),
}

/// A living activation: its number, the scope of its block, its mark, what waits for its end, the display to which its end goes back, and
/// how many cells it has with those below it, 8 more for each.
#[derive(Drop)]
pub struct Activation<'t> {
    pub number: u64,
    pub scope: u32,
    pub mark: Mark,
    pub caller: Caller<'t>,
    pub display: Display,
    pub cells: u64,
}

/// A process: what it is at, the display of its innermost activation, its living activations, the innermost last, what it shows to the
/// others, and its line. What a process that waits is at is what it does when it is ready.
#[derive(Drop)]
pub struct Activity<'t> {
    pub doing: Doing<'t>,
    pub display: Display,
    pub activations: Vec<Activation<'t>>,
    pub hand: Hand<'t>,
    pub line: u32,
}
