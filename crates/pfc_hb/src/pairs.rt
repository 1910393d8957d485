//! The pairs of conflicting accesses that nothing orders.
ghost use Rattle.std.specs.Prelude.{◌≡◌, ◌+◌, ◌<◌, ◌≤◌, ◌++◌, All, IfOk, OnOk, length, take};
ghost use Rattle.pfc_hb.specs.Clocks.{TellOrder};
ghost use Rattle.pfc_hb.specs.Conflicts.{AreRaces, races_of, races_with};
ghost use Rattle.pfc_hb.specs.Lines.{IsPair};
ghost use Rattle.pfc_hb.specs.Rows.{AreRows, TellsRaces};

use crate::marks::Marks;
use crate::order::{Order, order_of};
use crate::rows::{Rows, row_of, rows_of};
use crate::{Event, Race};
use pfc_base::Memory;
use std::alloc::Global;

/// The races among the events of a run, of which there are at most 2,000, in order by their first and then by their
/// second event: the pairs of events of different processes with accesses of one variable, at least one of them a write,
/// of which the first is not before the second. They are races of this run alone. The only refusal is want of memory.
pub fn races(alloc: Global, events: &[Event]) -> Result<Vec<Race>, Memory>
    requires { length events.now ≤ 2000 }
    ensures exact { IfOk result (λ races. AreRaces events.now races.items) }
    ensures pairs { IfOk result (λ races. All (IsPair events.now) races.items) }
    ensures computed { IfOk result (λ races. races.items ≡ races_of events.now) }
{
    let order = order_of(alloc, events)?;
    let rows = rows_of(alloc, events)?;
    let mut races = Vec::new(alloc);
    for first in 0..events.len() {
        add_races(alloc, &mut races, &rows, &order, first)?;
    }
    Ok(races)
}

/// Adds the races of one event with those behind it.
fn add_races<'a>(
    alloc: Global,
    races: &mut Vec<Race>,
    rows: &Rows<'a>,
    order: &Order,
    first: usize,
) -> Result<(), Memory>
    requires few { length rows.now.events.now ≤ 2000 }
    requires order { TellOrder rows.now.events.now order.now.slots.items order.now.columns.items }
    requires rows { AreRows rows.now }
    requires first { first < length rows.now.events.now }
    ensures { OnOk result (races.new.items ≡ races.old.items ++ races_with rows.now.events.now first (length rows.now.events.now)) }
{
    if rows.events[first].accesses.as_slice().is_empty() {
        return Ok(());
    }
    let row = races_row_of(alloc, rows, order, first)?;
    add_marked(races, rows.events, row.as_slice(), first)
}

/// Of each event behind the one at a place whether it has a race with that. The only refusal is want of memory.
fn races_row_of<'a>(
    alloc: Global,
    rows: &Rows<'a>,
    order: &Order,
    first: usize,
) -> Result<Marks, Memory>
    requires few { length rows.now.events.now ≤ 2000 }
    requires order { TellOrder rows.now.events.now order.now.slots.items order.now.columns.items }
    requires rows { AreRows rows.now }
    requires first { first < length rows.now.events.now }
    ensures { IfOk result (λ row. TellsRaces rows.now.events.now first row) }
{
    let mut row = row_of(alloc, rows, first)?;
    row.keep_at_most(order.column(first), first as u32, first + 1);
    Ok(row)
}

/// Adds the races of one event, given which events behind it have one with it. The only refusal is want of memory.
fn add_marked(
    races: &mut Vec<Race>,
    events: &[Event],
    row: &[bool],
    first: usize,
) -> Result<(), Memory>
    requires few { length events.now ≤ 2000 }
    requires row { TellsRaces events.now first row.now }
    requires first { first < length events.now }
    ensures { OnOk result (races.new.items ≡ races.old.items ++ races_with events.now first (length events.now)) }
{
    // Not of zeros alone, which would be set byte by byte.
    let start = races.len();
    let room = events.len() - first;
    races.resize(
        start + room,
        Race {
            first: 1,
            second: 2,
        },
    )?;
    let end = note_races(races, start, events, row, first);
    races.truncate(end);
    Ok(())
}

/// Notes the races of one event in a list from a place on, and gives the place behind them. There is room for as many as there are
/// events from this one on. There is no test in the loop: what is not marked is written over.
fn note_races(
    races: &mut [Race],
    start: usize,
    events: &[Event],
    row: &[bool],
    first: usize,
) -> usize
    requires few { length events.now ≤ 2000 }
    requires row { TellsRaces events.now first row.now }
    requires first { first < length events.now }
    requires room { start + length events.now ≤ length races.old + first }
    ensures room { length races.new ≡ length races.old }
    ensures end { result ≤ length races.new }
    ensures noted { take result races.new ≡ take start races.old ++ races_with events.now first (length events.now) }
{
    let mut end = start;
    for second in first + 1..events.len() {
        races[end] = Race {
            first: first as u32 + 1,
            second: second as u32 + 1,
        };
        end += usize::from(row[second]);
    }
    end
}
