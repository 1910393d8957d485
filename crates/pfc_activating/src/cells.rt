//! Cells of activations.
ghost use Rattle.std.specs.Prelude.{◌≡◌, ◌<◌, nat_le, true, false, None, IfSome, length};
ghost use Rattle.pfc_program.specs.Views.{block_view};
ghost use Rattle.pfc_program.specs.declared.tables.Tables.{Tables};
ghost use Rattle.pfc_semantics.specs.Calls as calls;
ghost use Rattle.pfc_activities.specs.Views.{activations_view};
ghost use Rattle.pfc_activating.specs.Cells.{HasCells, IsFull};

use pfc_activities::{Activation, State};
use pfc_program::Block;

/// The most cells of a process's activations.
fn most_cells(p: u32) -> u64
    ensures { result ≡ calls.most_cells p }
{
    if p == 0 { 262_144 } else { 16_384 }
}

/// The cells of all activations of a process.
fn cells_below(activations: &[Activation]) -> u64
    ensures { (t : Tables) → result ≡ calls.cells_below (activations_view t activations.now) }
{
    match activations {
        [.., last] => last.cells,
        [] => 0,
    }
}

/// Their cells with one activation more, of this block; None exactly where there would be too many.
pub fn cells_above(p: u32, activations: &[Activation], block: &Block) -> Option<u64>
    ensures some { IfSome result (λ n. (t : Tables) → calls.cells_above (activations_view t activations.now) (block_view t block.now) ≡ n) }
    ensures few { IfSome result (λ n. nat_le n (calls.most_cells p) ≡ true) }
    ensures many { result ≡ None → (t : Tables) →
        nat_le (calls.cells_above (activations_view t activations.now) (block_view t block.now)) (calls.most_cells p) ≡ false }
{
    let cells = cells_below(activations).checked_add(u64::from(block.cells) + 8)?;
    if cells > most_cells(p) {
        return None;
    }
    Some(cells)
}

/// The cells of all activations of process p with one more, of this block; None exactly where there would be too many.
pub fn cells_for(state: &State, p: u32, block: &Block) -> Option<u64>
    requires { p < length state.now.activities.items }
    ensures some { IfSome result (λ n. HasCells state.now p block.now n) }
    ensures few { IfSome result (λ n. nat_le n (calls.most_cells p) ≡ true) }
    ensures many { result ≡ None → IsFull state.now p block.now }
{
    cells_above(p, &state.activities[p as usize].activations, block)
}
