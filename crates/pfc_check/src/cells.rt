//! The cells of a block.
ghost use Rattle.std.specs.Prelude.{◌≡◌, ◌+◌, ◌*◌, ◌≤◌, ◌^◌, min, drop, nat_le, length};
ghost use Rattle.pfc_tree.specs.views.Parts.{kind_view};
ghost use Rattle.pfc_types.specs.Scopes.{scope_at};
ghost use Rattle.pfc_types.specs.rules.Declarations.{name_cells, scope_cells, scopes_cells, result_cells, process_cells};
ghost use Rattle.pfc_types.specs.rules.Whole.{main_cells};
ghost use Rattle.pfc_check.specs.States.{state_of};
ghost use Rattle.pfc_check.specs.Cells.{most};

use crate::state::State;
use pfc_tree::SubKind;
use pfc_types::{Meaning, TypeTable};

/// The most cells of one block.
const MOST_CELLS: u64 = 65_536;

/// A variable takes its type's cells, a reference and a single process one.
fn name_cells(types: &TypeTable, meaning: Meaning) -> u64
    ensures value { result ≡ name_cells types.now meaning }
    ensures bound { result ≤ 65536 }
{
    match meaning {
        Meaning::Variable { t, reference } => { if reference { 1 } else { types.held(t).cells } }
        Meaning::Process(_) => 1,
        _ => 0,
    }
}

/// A function's result takes one cell.
fn result_cells(kind: &SubKind) -> u64
    ensures value { result ≡ result_cells (kind_view kind.now) }
    ensures bound { result ≤ 1 }
{
    match kind {
        SubKind::Function(..) => 1,
        SubKind::Procedure | SubKind::Guarded(..) => 0,
    }
}

impl State {
    /// The cells of the names of the scope i.
    fn scope_cells(&self, i: u32) -> u64
        ensures value { result ≡ scope_cells (state_of self.now).forms (scope_at (state_of self.now).blocks.scopes i) }
        ensures bound { result ≤ 2 ^ 48 }
    {
        if self.scopes.len() <= i {
            return 0;
        }
        let scope = self.scopes.at(i);
        let mut cells = 0u64;
        for k in 0..scope.len() {
            cells += name_cells(&self.types, scope.meaning_at(k));
        }
        cells
    }

    /// The cells of the names of the scopes from number k on, counted up to the greatest number of 64 bits.
    fn scopes_cells(&self, k: u32) -> u64
        ensures { result ≡ most (scopes_cells (state_of self.now).forms (drop k (state_of self.now).blocks.scopes)) }
    {
        let mut cells = 0u64;
        for i in k..self.scopes.len() {
            cells = cells.saturating_add(self.scope_cells(i));
        }
        cells
    }

    /// The cells of a process's block: its parameters, its variables, and the parameters of its own accepts, whose
    /// scopes are those from number k on; counted up to the greatest number of 64 bits.
    fn process_cells(&self, own: u32, k: u32) -> u64
        ensures { result ≡ most (process_cells (state_of self.now) own k) }
    {
        self.scope_cells(own).saturating_add(self.scopes_cells(k))
    }

    /// The cells of main's block: the variables of the program, of monitors and of resources, and one cell for each
    /// single process; counted up to the greatest number of 64 bits.
    fn main_cells(&self) -> u64
        ensures { result ≡ most (main_cells (state_of self.now)) }
    {
        let mut cells = self.scope_cells(0);
        for m in 0..self.scopes.modules() {
            cells = cells.saturating_add(self.scope_cells(self.scopes.module(m).scope));
        }
        cells
    }

    /// A sub's block has no more cells than a block may have. Its scope is `own`.
    pub(crate) fn sub_fits(&self, own: u32, kind: &SubKind) -> bool
        ensures { result ≡ nat_le (scope_cells (state_of self.now).forms (scope_at (state_of self.now).blocks.scopes own) +
            result_cells (kind_view kind.now)) 65536 }
    {
        self.scope_cells(own) + result_cells(kind) <= MOST_CELLS
    }

    /// A process's block has no more cells than a block may have. The scopes of its own accepts are those from number k
    /// on.
    #[tactic(auto, using(crate::proofs::Lengths::few))]
    pub(crate) fn process_fits(&self, own: u32, k: u32) -> bool
        ensures { result ≡ nat_le (process_cells (state_of self.now) own k) 65536 }
    {
        self.process_cells(own, k) <= MOST_CELLS
    }

    /// Main's block has no more cells than a block may have.
    #[tactic(auto, using(crate::proofs::Lengths::few))]
    pub(crate) fn main_fits(&self) -> bool
        ensures { result ≡ nat_le (main_cells (state_of self.now)) 65536 }
    {
        self.main_cells() <= MOST_CELLS
    }
}
