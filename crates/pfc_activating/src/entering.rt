//! How a process enters a block.
ghost use Rattle.std.specs.Prelude.{◌≡◌, ◌+◌, ◌<◌, ◌≤◌, ◌∷◌, map, length, IfOk, OnErr, OnOk};
ghost use Rattle.std.specs.Vec.{vec_len, vec_capacity};
ghost use Rattle.pfc_program.specs.declared.tables.Tables.{Tables};
ghost use Rattle.pfc_store.specs.Views.{values_view, store_view};
ghost use Rattle.pfc_semantics.specs.Displays.{outward};
ghost use Rattle.pfc_pending.specs.Waiting.{given_view};
ghost use Rattle.pfc_activities.specs.Relation.{StaysAt};
ghost use Rattle.pfc_activities.specs.Shown.{activity_shown};
ghost use Rattle.pfc_activating.specs.Cells.{HasCells};
ghost use Rattle.pfc_activating.specs.Entering.{values_in, entered, IsAlike, Activates, KeepsOthers};
ghost use Rattle.pfc_activating.specs.Passing.{passed_in};

use crate::passed;
use pfc_activities::{Activation, Activity, Caller, Doing, Hand, Mark, Source, State};
use pfc_base::Memory;
use pfc_pending::Argument;
use pfc_program::Block;
use pfc_store::{Display, Frame, Store, Value, new_values};
use pfc_types::TypeTable;
use std::alloc::Global;
use std::mem;

/// What waits for the end of a call: the statement behind it, or an expression that wants its result.
#[derive(Clone, Copy)]
pub enum Waits {
    Statement,
    Value,
}

/// How a block is entered: the mark of its activation, what waits for its end, and the cells of its process with it.
#[derive(Clone, Copy)]
pub struct Entry {
    pub mark: Mark,
    pub waits: Waits,
    pub cells: u64,
}

/// The number of a new activation, and the scope of its block.
#[derive(Clone, Copy)]
struct Place {
    number: u64,
    scope: u32,
}

/// What an activation begins with: what is in view in it, and its variables.
#[derive(Drop)]
pub struct Beginning {
    pub display: Display,
    pub values: Vec<Value>,
}

/// The process has this at hand in a new activation of the block above its others, with the arguments in it; its action is not yet
/// counted. Want of memory changes nothing that is to be seen.
pub fn activate<'t>(
    alloc: Global,
    source: &Source<'t>,
    state: &mut State<'t>,
    p: u32,
    block: &Block<'t>,
    entry: Entry,
    doing: Doing<'t>,
    args: &[Argument],
) -> Result<(), Memory>
    requires within { p < length state.old.activities.items }
    requires cells { HasCells state.old p block.now entry.cells }
    ensures ok { OnOk result (Activates source.now state.old state.new p block.now entry doing.entry args.now) }
    ensures kept { OnOk result (KeepsOthers state.old state.new) }
    ensures err { OnErr result (StaysAt state.old state.new p) }
{
    let place = Place {
        number: state.world.done() + 1,
        scope: block.scope,
    };
    let types = source.program.tables.types;
    let display = &state.activities[p as usize].display;
    let Ok(beginning) = prepare(
        alloc,
        types,
        &state.store,
        display,
        place.number,
        block,
        args,
    ) else {
        drop(doing);
        return Err(Memory);
    };
    let Ok(()) = make_room(&mut state.activities[p as usize]) else {
        drop(doing);
        return Err(Memory);
    };
    let Ok(()) = state.store.add(place.number, beginning.values) else {
        drop(doing);
        return Err(Memory);
    };
    enter(
        &mut state.activities[p as usize],
        place,
        entry,
        doing,
        beginning.display,
    );
    Ok(())
}

/// What an activation of a block with this number begins with, where that is entered by a process with this display. Its only refusal is want
/// of memory.
pub fn prepare<'t>(
    alloc: Global,
    types: &TypeTable,
    store: &Store,
    display: &Display,
    number: u64,
    block: &Block<'t>,
    args: &[Argument],
) -> Result<Beginning, Memory>
    ensures display { IfOk result (λ b. b.display ≡ record { scope = block.now.scope; activation = number; first = 0 } ∷ outward display.now block.now.outer) }
    ensures values { IfOk result (λ b. values_view b.values.items ≡ values_in types.now block.now.layout.items
        (map (passed_in (store_view store.now) display.now) (given_view args.now))) }
{
    let own = Frame {
        scope: block.scope,
        activation: number,
        first: 0,
    };
    let args = passed(alloc, store, display, args)?;
    Ok(Beginning {
        display: display.inner(alloc, own, block.outer)?,
        values: new_values(alloc, types, &block.layout, args)?,
    })
}

/// Takes room for one activation more. Its only refusal is want of memory; there is nothing to be seen of it.
fn make_room<'t>(activity: &mut Activity<'t>) -> Result<(), Memory>
    ensures same { IsAlike activity.old activity.new }
    ensures room { OnOk result (vec_len activity.new.activations + 1 ≤ vec_capacity activity.new.activations) }
{
    activity.activations.reserve(1)?;
    Ok(())
}

/// The process has this at hand, in a new activation above its others, for which there is room.
fn enter<'t>(
    activity: &mut Activity<'t>,
    place: Place,
    entry: Entry,
    doing: Doing<'t>,
    display: Display,
)
    requires { vec_len activity.old.activations + 1 ≤ vec_capacity activity.old.activations }
    ensures { (t : Tables) → activity_shown t activity.new ≡ entered t activity.old place.number place.scope entry doing.entry display }
{
    let Doing {
        names,
        line,
        at,
        pending,
    } = mem::replace(&mut activity.doing, doing);
    drop(at);
    let back = mem::replace(&mut activity.display, display);
    drop(mem::replace(&mut activity.hand, Hand::Empty));
    let caller = match entry.waits {
        Waits::Statement => Caller::Remainder(names, pending),
        Waits::Value => Caller::Value(names, line, pending),
    };
    let activation = Activation {
        number: place.number,
        scope: place.scope,
        mark: entry.mark,
        caller,
        display: back,
        cells: entry.cells,
    };
    activity.activations.push_reserved(activation);
}
