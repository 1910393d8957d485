//! The finished tables of a program.

use pfc_types::{Scopes, TypeTable};

/// The table of types and the scopes of a whole program, as its declarations make them.
#[derive(Clone, Copy)]
pub struct Tables<'a> {
    pub types: &'a TypeTable,
    pub scopes: &'a Scopes,
}
