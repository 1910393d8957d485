//! Rows: with which events of a run the accesses of one event clash.
ghost use Rattle.std.specs.Prelude.{◌≡◌, ◌<◌, ◌≤◌, All, IfOk, OnOk, length, true};
ghost use Rattle.pfc_hb.specs.Parts.{is_known};
ghost use Rattle.pfc_hb.specs.Rows.{AddsClashes, AddsOthers, AddsUsers, AreRows, TellsClashes};
ghost use Rattle.pfc_hb.specs.Users.{HaveWidth, users_at};

use crate::marks::Marks;
use crate::parts::{Part, number_of, numbers_outside, parts_of};
use crate::users::{Users, Uses, uses_of};
use crate::{Access, Event};
use indexmap::IndexSet;
use pfc_base::Memory;
use std::alloc::Global;

/// The events of a run, and what they access, with its users.
#[derive(Drop)]
pub(crate) struct Rows<'a> {
    pub(crate) events: &'a [Event],
    pub(crate) parts: IndexSet<Part<'a>>,
    pub(crate) uses: Uses,
}

/// What tells the rows of these events. The only refusal is want of memory.
pub(crate) fn rows_of<'a>(alloc: Global, events: &'a [Event]) -> Result<Rows<'a>, Memory>
    ensures same { IfOk result (λ rows. rows.events.now ≡ events.now) }
    ensures told { IfOk result AreRows }
{
    let parts = parts_of(alloc, events)?;
    let uses = uses_of(alloc, events, &parts)?;
    Ok(Rows {
        events,
        parts,
        uses,
    })
}

/// Of each event behind the one at a place whether the accesses of both clash. The only refusal is want of memory.
pub(crate) fn row_of<'a>(alloc: Global, rows: &Rows<'a>, first: usize) -> Result<Marks, Memory>
    requires rows { AreRows rows.now }
    requires first { first < length rows.now.events.now }
    ensures { IfOk result (λ row. TellsClashes rows.now.events.now first row) }
{
    let mut row = Marks::new(alloc, rows.events.len())?;
    for access in rows.events[first].accesses.as_slice() {
        add_clashes(alloc, &mut row, rows, access, first + 1)?;
    }
    Ok(row)
}

/// Adds the events from a place on with which an access clashes: those that access a part of what it is of, and those that access
/// what this is a part of.
fn add_clashes<'a>(
    alloc: Global,
    row: &mut Marks,
    rows: &Rows<'a>,
    access: &'a Access,
    from: usize,
) -> Result<(), Memory>
    requires rows { AreRows rows.now }
    requires known { is_known rows.now.parts.keys access.now.spot ≡ true }
    requires wide { length row.old ≡ length rows.now.events.now }
    requires from { from ≤ length row.old }
    ensures wide { OnOk result (length row.new ≡ length row.old) }
    ensures added { OnOk result (AddsClashes rows.now.events.now from access.now row.old row.new) }
{
    if let Some(own) = number_of(&rows.parts, &access.spot) {
        let outside = numbers_outside(alloc, &rows.parts, &access.spot)?;
        add_others(row, &rows.uses.at, &outside, access.write, from);
        add_within(row, rows, own, access.write, from);
    }
    Ok(())
}

/// Adds the events from a place on that access the part of a number or a part of it, where an access of it clashes with theirs.
fn add_within<'a>(row: &mut Marks, rows: &Rows<'a>, number: usize, write: bool, from: usize)
    requires number { number < length rows.now.uses.within.items }
    requires wide { HaveWidth (length row.old) rows.now.uses.within.items }
    requires from { from ≤ length row.old }
    ensures wide { length row.new ≡ length row.old }
    ensures added { AddsUsers (users_at rows.now.uses.within.items number) write from row.old row.new }
{
    row.add(rows.uses.within[number].against(write), from);
}

/// Adds the users from a place on of the parts of these numbers.
fn add_others(row: &mut Marks, users: &[Users], numbers: &[usize], write: bool, from: usize)
    requires numbers { All (λ n. n < length users.now) numbers.now }
    requires wide { HaveWidth (length row.old) users.now }
    requires from { from ≤ length row.old }
    ensures wide { length row.new ≡ length row.old }
    ensures added { AddsOthers users.now numbers.now write from row.old row.new }
{
    for number in numbers {
        row.add(users[*number].against(write), from);
    }
}
