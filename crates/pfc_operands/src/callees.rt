//! What is known of the blocks that are called.
ghost use Rattle.pfc_operands.specs.Callees.{AreCallees, program_in};

use pfc_tree::Tree;
use pfc_types::{Scopes, TypeTable};

/// The blocks of a program, by their numbers.
#[derive(Clone, Copy)]
pub struct Callees<'a> {
    pub tree: &'a Tree,
    pub types: &'a TypeTable,
    pub scopes: &'a Scopes,
    /// How many cells the parameters of each block take.
    pub params: &'a [u32],
    /// Of each block, 1 for a function, which leaves its result, else 0.
    pub results: &'a [u32],
    ghost fits: { AreCallees (program_in tree.now types.now scopes.now) params.now results.now },
}
