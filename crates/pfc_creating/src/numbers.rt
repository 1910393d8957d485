//! Processes by their numbers.
ghost use Rattle.std.specs.Prelude.{◌≡◌, ◌-◌, ◌<◌, get_or, length, IfOk};
ghost use Rattle.pfc_state.specs.Stands.{is_unfinished as is_unfinished_stand};
ghost use Rattle.pfc_world.specs.Tables.{at};
ghost use Rattle.pfc_program.specs.Views.{block_view};
ghost use Rattle.pfc_waiting.specs.Waiting.{IsNumber};
ghost use Rattle.pfc_creating.specs.Creating.{block_in, is_under_way};

use pfc_activities::{Source, State};
use pfc_base::Memory;
use pfc_program::Block;
use pfc_store::{Objects, Spot};
use pfc_world::{State as Standing, World};

/// The process that a spot names for process p: that is no read. One that is none, or main, which never comes, counts as want of memory.
pub(crate) fn process_for<'t>(state: &State<'t>, p: u32, spot: &Spot) -> Result<u32, Memory>
    requires { p < length state.now.activities.items }
    ensures number { IfOk result (λ n. IsNumber state.now p spot.now n) }
    ensures child { IfOk result (λ n. 0 < n) }
    ensures within { IfOk result (λ n. n < length state.now.activities.items) }
    ensures rows { IfOk result (λ n. n < length state.now.world.rows) }
{
    let display = &state.activities[p as usize].display;
    let n = state.store.ordinal_in(display, spot).unsigned_abs();
    if n == 0 || n >= u64::from(state.world.processes()) || n >= state.activities.len() as u64 {
        return Err(Memory);
    }
    Ok(n as u32)
}

/// Whether the process was activated, and has not finished since.
pub(crate) fn is_unfinished(world: &World, n: u32) -> bool
    requires { n < length world.now.rows }
    ensures { result ≡ is_unfinished_stand (at world.now.rows n) }
{
    is_under_way(world.state(n))
}

/// Whether it is the state of such a process.
fn is_under_way(state: Standing) -> bool
    ensures { result ≡ is_under_way state }
{
    match state {
        Standing::Idle => false,
        Standing::Done => false,
        Standing::Created => true,
        Standing::Ready => true,
        Standing::Waiting(_) => true,
    }
}

/// The declaration of the process with this number, from 1; 0 where there is none.
fn declaration_of(objects: &Objects, n: u32) -> u32
    requires { 0 < n }
    ensures { result ≡ get_or objects.now.processes.items (n - 1) 0 }
{
    match objects.processes.get(n as usize - 1) {
        Some(declaration) => *declaration,
        None => 0,
    }
}

/// The block of the process with this number, from 1.
pub(crate) fn block_of<'s, 't>(source: &'s Source<'t>, n: u32) -> &'s Block<'t>
    requires { 0 < n }
    ensures { block_view source.now.program.tables result.now ≡ block_in source.now n }
{
    let declaration = declaration_of(&source.objects, n);
    let scope = source.program.tables.scopes.process_scope(declaration);
    source.program.block_at(scope)
}
