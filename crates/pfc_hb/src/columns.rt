//! Columns: the counts of one process in the clocks of all events, side by side, as a look at all events behind one needs them.
ghost use Rattle.std.specs.Prelude.{◌≡◌, ◌<◌, All, IfOk, length, map, slice_index};
ghost use Rattle.pfc_hb.specs.Clocks.{AreColumns};

use crate::clocks::Clock;
use pfc_base::Memory;
use std::alloc::Global;
use std::marker::Model;

/// What the clocks of all events count of one process, side by side. A contract sees the list of the counts.
#[derive(Drop)]
pub(crate) struct Column {
    counts: Vec<u32>,
}

impl Model for Column {
    ghost use Rattle.std.specs.Prelude.{ℕ, List};

    ghost Value = { List ℕ };

    ghost view = { λ c. c.counts.items };
}

impl Column {
    /// The counts, one for each event.
    pub(crate) fn as_slice(&self) -> &[u32]
        ensures { result.now ≡ self.now }
    {
        &self.counts
    }
}

/// A column for each slot of these clocks, which have `width` slots each. The only refusal is want of memory.
pub(crate) fn columns_of(
    alloc: Global,
    clocks: &[Clock],
    width: usize,
) -> Result<Vec<Column>, Memory>
    requires { All (λ clock. length clock ≡ width) clocks.now }
    ensures { IfOk result (λ columns. AreColumns clocks.now width columns.items) }
{
    let mut columns = Vec::new(alloc);
    for slot in 0..width {
        columns.push(column_of(alloc, clocks, slot)?)?;
    }
    Ok(columns)
}

/// The counts at one slot.
fn column_of(alloc: Global, clocks: &[Clock], slot: usize) -> Result<Column, Memory>
    requires { All (λ clock. slot < length clock) clocks.now }
    ensures { IfOk result (λ column. column ≡ map (λ clock. slice_index clock slot) clocks.now) }
{
    let mut counts = Vec::with_capacity(alloc, clocks.len())?;
    for clock in clocks {
        counts.push(clock.count(slot))?;
    }
    Ok(Column { counts })
}
