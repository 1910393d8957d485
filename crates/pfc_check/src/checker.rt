//! The check of a tree.
ghost use Rattle.std.specs.Prelude.{◌≡◌, IsSome, IsErr, IfOk, IfErr};
ghost use Rattle.pfc_tree.specs.Readings.{tree_shape};
ghost use Rattle.pfc_tree.specs.Grammar.{IsSmall};
ghost use Rattle.pfc_tree.specs.views.Parts.{tree_view};
ghost use Rattle.pfc_types.specs.Checking.{IsChecked};
ghost use Rattle.pfc_types.specs.rules.Whole.{finished, first_fault};
ghost use Rattle.pfc_check.specs.States.{state_of};
ghost use Rattle.pfc_check.specs.Answers.{IsFault};

use crate::items::Owner;
use crate::state::{Block, State};
use pfc_base::{Memory, Refusal};
use pfc_rules::first_broken;
use pfc_tree::Tree;
use pfc_types::Checked;
use std::alloc::Global;

/// Why a tree is not checked. It hands the tree back.
#[derive(Drop)]
pub enum CheckFault {
    /// A static rule is broken in it: the first in the text, and at one place the lowest code.
    Refused { refusal: Refusal, tree: Tree },
    /// Memory was refused, or a list is full: it holds 2^32 - 1.
    Memory { tree: Tree },
}

/// The checked tree, or the first static rule that is broken in it. A refusal and want of memory hand the tree back.
pub fn check(alloc: Global, tree: Tree) -> Result<Checked, CheckFault>
    requires { IsSmall (tree_shape tree) }
    ensures tree { IfOk result (λ c. c.0 ≡ tree) }
    ensures checked { IfOk result (λ c. IsChecked (tree_view tree) c.1 c.2) }
    ensures broken { IsSome (first_fault (tree_view tree)) → IsErr result }
    ensures fault { IfErr result (λ fault. IsFault tree fault) }
{
    match declared(alloc, &tree) {
        Err(Memory) => Err(CheckFault::Memory { tree }),
        Ok(state) => finish(tree, state),
    }
}

/// The table of types and the scopes that a tree's declarations make, with the rules that are broken in them.
fn declared(alloc: Global, tree: &Tree) -> Result<State, Memory>
    ensures { IfOk result (λ state. state_of state ≡ finished (tree_view tree.now)) }
{
    let mut state = State::new(alloc)?;
    let block = Block {
        scope: 0,
        outer: None,
    };
    state.parts(&tree.parts, Owner::Program, block)?;
    let view = state.here(block);
    state.body(&tree.body, &view)?;
    state.unless(state.main_fits(), tree.name.1, 304)?;
    Ok(state)
}

/// The checked tree with what its declarations make, or the first rule that is broken in it.
fn finish(tree: Tree, state: State) -> Result<Checked, CheckFault>
    requires small { IsSmall (tree_shape tree) }
    requires made { state_of state ≡ finished (tree_view tree) }
    ensures tree { IfOk result (λ c. c.0 ≡ tree) }
    ensures checked { IfOk result (λ c. IsChecked (tree_view tree) c.1 c.2) }
    ensures broken { IsSome (first_fault (tree_view tree)) → IsErr result }
    ensures fault { IfErr result (λ fault. IsFault tree fault) }
{
    match first_broken(&tree, &state.types, &state.scopes, 0) {
        Some(refusal) => Err(CheckFault::Refused { refusal, tree }),
        None => Ok(Checked::new(tree, state.types, state.scopes)),
    }
}
