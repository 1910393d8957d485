//! What a process that waits shows to the others.

use pfc_pending::{Bar, Open};
use pfc_store::Value;

/// The alternatives that a process offers, of which a plain communication has one, with the line of its statement. Behind an alternative
/// the first `kept` of what is pending is left.
#[derive(Drop)]
pub struct Offering<'t> {
    pub line: u32,
    pub opens: Vec<Open<'t>>,
    pub kept: usize,
}

/// What a process shows: nothing, what it offers, the arguments of its call of an entry, or the guard at which it is barred.
#[derive(Drop)]
pub enum Hand<'t> {
    Empty,
    Offering(Offering<'t>),
    Asking(Vec<Value>),
    Barred(Bar<'t>),
}
