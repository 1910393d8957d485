//! What is known of a program before anything runs.

use pfc_program::Program;
use pfc_store::Objects;

/// A program with the numbers of its objects.
#[derive(Drop)]
pub struct Source<'t> {
    pub program: Program<'t>,
    pub objects: Objects,
}
