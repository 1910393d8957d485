//! Activations of processes.
ghost use Rattle.std.specs.Prelude.{◌≡◌, ◌<◌, ◌∷◌, [], map, length, false, IfOk, IfErr, OnErr, OnOk};
ghost use Rattle.pfc_types.specs.Scopes.{scope_at};
ghost use Rattle.pfc_state.specs.Stands.{Is_ready, Is_created, is_unfinished as is_unfinished_stand};
ghost use Rattle.pfc_world.specs.Tables.{at};
ghost use Rattle.pfc_world.specs.Transitions.{placed};
ghost use Rattle.pfc_program.specs.Views.{block_view};
ghost use Rattle.pfc_program.specs.declared.tables.Tables.{Tables as Finished};
ghost use Rattle.pfc_store.specs.Views.{values_view, store_view};
ghost use Rattle.pfc_semantics.specs.Calls as calls;
ghost use Rattle.pfc_semantics.specs.Configurations.{plain, of_nobody, empty_hand};
ghost use Rattle.pfc_semantics.specs.Displays.{accept_frames};
ghost use Rattle.pfc_semantics.specs.Layouts.{laid_names};
ghost use Rattle.pfc_pending.specs.declared.actions.Deed.TheVariants as deed;
ghost use Rattle.pfc_pending.specs.declared.pending.Callee.TheVariants as callee;
ghost use Rattle.pfc_pending.specs.Waiting.{given_view};
ghost use Rattle.pfc_activities.specs.Relation.{MayAct, Performs, StaysAt};
ghost use Rattle.pfc_activities.specs.Shown.{activity_shown};
ghost use Rattle.pfc_activities.specs.Views.{activations_view, doing_ahead};
ghost use Rattle.pfc_activating.specs.Entering.{values_in};
ghost use Rattle.pfc_activating.specs.Passing.{passed_in};
ghost use Rattle.pfc_creating.specs.Creating.{Creates, Begins, KeepsCount};

use crate::numbers::{block_of, is_unfinished, process_for};
use pfc_activating::{Beginning, at_body, cells_above, passed};
use pfc_activities::{Activation, Activity, Caller, Doing, Done, Hand, Mark, Source, State};
use pfc_base::{Memory, RunFault};
use pfc_pending::{Argument, At};
use pfc_program::{Block, Tables};
use pfc_store::{Display, Frame, Spot, Store, new_values};
use pfc_waiting::go_on_when_ready;
use pfc_world::World;
use std::alloc::Global;

/// `p(args)`: the process is created, and the one that acts goes on. The faults are that of a process which is created, ready or waiting,
/// and then that of too many cells. Want of memory changes nothing that is to be seen, and gives back what was given; a process that is none,
/// which never comes, counts as one.
pub fn creates<'t>(
    alloc: Global,
    source: &Source<'t>,
    state: &mut State<'t>,
    p: u32,
    spot: Spot,
    args: Vec<Argument>,
) -> Result<Done, (Spot, Vec<Argument>)>
    requires { MayAct state.old p }
    ensures ok { IfOk result (λ d. Performs source.now state.old state.new p (deed.Calls (callee.Process spot) args) [] d) }
    ensures err { OnErr result (StaysAt state.old state.new p) }
    ensures given { IfErr result (λ given. given ≡ (spot, args)) }
{
    match created(alloc, source, state, p, &spot, &args) {
        Ok(done) => Ok(done),
        Err(Memory) => Err((spot, args)),
    }
}

/// The same of the spot and the arguments alone.
fn created<'t>(
    alloc: Global,
    source: &Source<'t>,
    state: &mut State<'t>,
    p: u32,
    spot: &Spot,
    args: &[Argument],
) -> Result<Done, Memory>
    requires { MayAct state.old p }
    ensures ok { IfOk result (λ d. Creates source.now state.old state.new p spot.now args.now d) }
    ensures err { OnErr result (StaysAt state.old state.new p) }
{
    let n = process_for(state, p, spot)?;
    if is_unfinished(&state.world, n) {
        return Ok(state.end_in_fault(p, RunFault::Active));
    }
    let block = block_of(source, n);
    let Some(cells) = cells_above(n, &[], block) else {
        return Ok(state.end_in_fault(p, RunFault::Stack));
    };
    begin(alloc, source, state, p, n, block, cells, args)?;
    Ok(go_on_when_ready(state, p, At::Rest))
}

/// Process n is created, at the body of its block, with the arguments that process p passes; the action is not yet counted. Want of memory
/// changes nothing that is to be seen.
fn begin<'t>(
    alloc: Global,
    source: &Source<'t>,
    state: &mut State<'t>,
    p: u32,
    n: u32,
    block: &Block<'t>,
    cells: u64,
    args: &[Argument],
) -> Result<(), Memory>
    requires within { p < length state.old.activities.items }
    requires ready { at state.old.world.rows p ≡ Is_ready }
    requires process { n < length state.old.activities.items }
    requires rows { n < length state.old.world.rows }
    requires free { is_unfinished_stand (at state.old.world.rows n) ≡ false }
    requires cells { (t : Finished) → calls.cells_above [] (block_view t block.now) ≡ cells }
    ensures ok { OnOk result (Begins source.now state.old state.new p n block.now args.now) }
    ensures kept { OnOk result (KeepsCount state.old state.new) }
    ensures err { OnErr result (StaysAt state.old state.new p) }
{
    let number = state.world.done() + 1;
    let display = &state.activities[p as usize].display;
    let beginning = prepare(
        alloc,
        source.program.tables,
        &state.store,
        display,
        number,
        block,
        args,
    )?;
    let first = first_activation(alloc, number, block.scope, cells)?;
    let doing = at_body(alloc, block)?;
    state.store.add(number, beginning.values)?;
    create(&mut state.world, n);
    enter(
        &mut state.activities[n as usize],
        doing,
        beginning.display,
        first,
    );
    Ok(())
}

/// What the first activation of a process begins with, as the action with this number. Its only refusal is want of memory.
fn prepare<'t>(
    alloc: Global,
    tables: Tables<'t>,
    store: &Store,
    display: &Display,
    number: u64,
    block: &Block<'t>,
    args: &[Argument],
) -> Result<Beginning, Memory>
    ensures display { IfOk result (λ b. b.display ≡ record {
      scope = block.now.scope;
      activation = number;
      first =
          0;
    } ∷ accept_frames tables.entry.scopes.now number block.now.accepts block.now.next
        (length (laid_names (scope_at tables.entry.scopes.now.scopes block.now.scope)))) }
    ensures values { IfOk result (λ b. values_view b.values.items ≡ values_in tables.entry.types.now block.now.layout.items
        (map (passed_in (store_view store.now) display.now) (given_view args.now))) }
{
    let own = Frame {
        scope: block.scope,
        activation: number,
        first: 0,
    };
    let args = passed(alloc, store, display, args)?;
    Ok(Beginning {
        display: Display::of_process(alloc, tables.scopes, own, block.accepts, block.next)?,
        values: new_values(alloc, tables.types, &block.layout, args)?,
    })
}

/// The first activation of a process, whose end nobody waits for. Its only refusal is want of memory.
fn first_activation<'t>(
    alloc: Global,
    number: u64,
    scope: u32,
    cells: u64,
) -> Result<Vec<Activation<'t>>, Memory>
    ensures { IfOk result (λ first. (t : Finished) → activations_view t first.items ≡ record {
      number = number;
      scope = scope;
      mark = plain;
      caller =
          of_nobody;
      display = [];
      cells = cells;
    } ∷ []) }
{
    let mut first = Vec::new(alloc);
    first.push(Activation {
        number,
        scope,
        mark: Mark::Plain,
        caller: Caller::Nobody,
        display: Display::new(alloc),
        cells,
    })?;
    Ok(first)
}

/// A process that is not unfinished is created.
fn create(world: &mut World, n: u32)
    requires rows { n < length world.old.rows }
    requires free { is_unfinished_stand (at world.old.rows n) ≡ false }
    ensures { world.new ≡ placed world.old n Is_created }
{
    match world.create(n) {
        Ok(()) => {}
        Err(_) => {}
    }
}

/// The process is at this in its first activation.
fn enter<'t>(
    activity: &mut Activity<'t>,
    doing: Doing<'t>,
    display: Display,
    first: Vec<Activation<'t>>,
)
    ensures { (t : Finished) → activity_shown t activity.new ≡ record {
      next = doing_ahead t doing.entry;
      display = display;
      activations =
          activations_view t first.entry.items;
      hand = empty_hand;
      line = activity.old.line;
    } }
{
    activity.doing = doing;
    activity.display = display;
    activity.hand = Hand::Empty;
    activity.activations = first;
}
