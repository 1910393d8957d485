//! Bodies whose code was put.

use pfc_base::Name;
use pfc_program::Block;

/// A body whose code was put.
#[derive(Clone, Copy)]
pub struct Placed<'t, 'p> {
    pub block: &'p Block<'t>,
    /// The name that was declared for it.
    pub name: &'p Name,
    /// The address of its first instruction, from 0: for a guarded procedure that of its guard.
    pub entry: u32,
    /// The address of its body's first instruction.
    pub body: u32,
    /// The address behind its last instruction.
    pub end: u32,
    /// How deep it is nested, from 0 for the program's own body.
    pub level: u32,
}
