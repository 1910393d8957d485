//! Requeues.
ghost use Rattle.std.specs.Prelude.{◌≡◌, ◌<◌, [], drop, get_or, None, length, IfOk, IfErr, IfSome, OnErr, OnOk, nat_le, true, false};
ghost use Rattle.pfc_program.specs.Views.{block_view};
ghost use Rattle.pfc_program.specs.declared.tables.Tables.{Tables};
ghost use Rattle.pfc_semantics.specs.Calls as calls;
ghost use Rattle.pfc_semantics.specs.Configurations.{empty_hand};
ghost use Rattle.pfc_semantics.specs.Resources.{resource_marked};
ghost use Rattle.pfc_pending.specs.declared.actions.Deed.TheVariants as deed;
ghost use Rattle.pfc_pending.specs.declared.pending.Callee.TheVariants as callee;
ghost use Rattle.pfc_pending.specs.Waiting.{scan_view};
ghost use Rattle.pfc_activities.specs.Relation.{MayAct, Performs, StaysAt};
ghost use Rattle.pfc_activities.specs.Shown.{activity_shown};
ghost use Rattle.pfc_activities.specs.Views.{doing_ahead, activations_view, mark_view};
ghost use Rattle.pfc_activating.specs.Entering.{KeepsOthers};
ghost use Rattle.pfc_entering.specs.Guards.{way_in};
ghost use Rattle.pfc_requeueing.specs.Requeueing.{IsInnermost, IsInnermostOf, instead, HasCellsInstead, IsFullInstead, GivesWay, Requeues};

use pfc_activating::{cells_above, end_at, prepare};
use pfc_activities::{Activation, Activity, Doing, Done, Hand, Mark, Source, State};
use pfc_base::{Memory, RunFault};
use pfc_entering::{at_scan, bar_at, procedure_of};
use pfc_pending::{Argument, Scan};
use pfc_program::{Block, Program};
use pfc_store::Display;
use std::alloc::Global;

/// The innermost activation of a process: its number and its mark.
#[derive(Clone, Copy)]
struct Innermost {
    number: u64,
    mark: Mark,
}

/// What it becomes: its number, the scope of its block, and the cells of its process with it.
#[derive(Clone, Copy)]
struct Other {
    number: u64,
    scope: u32,
    cells: u64,
}

/// A requeue to a procedure, by its scope: its activation takes the place of the innermost, and a scan comes ahead of its guard. Fault 6 where
/// its process would have too many cells. Want of memory changes nothing that is to be seen, and gives the arguments back; a process that is
/// in no procedure, which never comes, counts as one.
pub fn requeues<'t>(
    alloc: Global,
    source: &'t Source<'t>,
    state: &mut State<'t>,
    p: u32,
    scope: u32,
    args: Vec<Argument>,
) -> Result<Done, Vec<Argument>>
    requires { MayAct state.old p }
    ensures ok { IfOk result (λ d. Performs source.now state.old state.new p (deed.Calls (callee.Requeue scope) args) [] d) }
    ensures err { OnErr result (StaysAt state.old state.new p) }
    ensures given { IfErr result (λ given. given ≡ args) }
{
    match requeued(alloc, source, state, p, scope, &args) {
        Ok(done) => Ok(done),
        Err(Memory) => Err(args),
    }
}

/// The same of the arguments alone.
fn requeued<'t>(
    alloc: Global,
    source: &'t Source<'t>,
    state: &mut State<'t>,
    p: u32,
    scope: u32,
    args: &[Argument],
) -> Result<Done, Memory>
    requires { MayAct state.old p }
    ensures ok { IfOk result (λ d. Requeues source.now state.old state.new p scope args.now d) }
    ensures err { OnErr result (StaysAt state.old state.new p) }
{
    let block = source.program.block_at(scope);
    let Some(innermost) = innermost_of(state, p) else {
        return Err(Memory)
    };
    let Some(cells) = cells_instead(state, p, block) else {
        return Ok(state.end_in_fault(p, RunFault::Stack));
    };
    let line = state.line_of(p);
    let procedure = procedure_of(&source.program, block)?;
    let scan = scan_ahead(
        &source.program,
        block,
        resource_of(innermost.mark),
        procedure,
    );
    let doing = at_scan(alloc, block, scan)?;
    give_way(
        alloc, source, state, p, block, innermost, cells, doing, args,
    )?;
    Ok(end_at(state, p, line))
}

/// The innermost activation of the process; None where there is none.
fn innermost_of<'t>(state: &State<'t>, p: u32) -> Option<Innermost>
    requires { p < length state.now.activities.items }
    ensures { IfSome result (λ i. IsInnermostOf state.now p i.number (mark_view i.mark)) }
{
    innermost_in(&state.activities[p as usize].activations)
}

/// The innermost of these activations; None where there is none.
fn innermost_in<'t>(activations: &[Activation<'t>]) -> Option<Innermost>
    ensures { IfSome result (λ i. (t : Tables) → IsInnermost i.number (mark_view i.mark) (activations_view t activations.now)) }
{
    match activations {
        [.., last] => Some(Innermost {
            number: last.number,
            mark: last.mark,
        }),
        [] => None,
    }
}

/// The cells of the process with an activation of this block in place of its innermost; None exactly where there would be too many.
fn cells_instead<'t>(state: &State<'t>, p: u32, block: &Block<'t>) -> Option<u64>
    requires { p < length state.now.activities.items }
    ensures some { IfSome result (λ n. HasCellsInstead state.now p block.now n) }
    ensures few { IfSome result (λ n. nat_le n (calls.most_cells p) ≡ true) }
    ensures many { result ≡ None → IsFullInstead state.now p block.now }
{
    cells_with(p, &state.activities[p as usize].activations, block)
}

/// The cells of these activations with one of this block in place of the innermost; None exactly where there would be too many.
fn cells_with<'t>(p: u32, activations: &[Activation<'t>], block: &Block<'t>) -> Option<u64>
    ensures some { IfSome result (λ n. (t : Tables) → calls.cells_above (drop 1 (activations_view t activations.now)) (block_view t block.now) ≡ n) }
    ensures few { IfSome result (λ n. nat_le n (calls.most_cells p) ≡ true) }
    ensures many { result ≡ None → (t : Tables) →
        nat_le (calls.cells_above (drop 1 (activations_view t activations.now)) (block_view t block.now)) (calls.most_cells p) ≡ false }
{
    match activations {
        [below @ .., _innermost] => cells_above(p, below, block),
        [] => cells_above(p, &[], block),
    }
}

/// The resource of a mark, 0 where it is none.
fn resource_of(mark: Mark) -> u32
    ensures { result ≡ resource_marked (mark_view mark) }
{
    match mark {
        Mark::Resource(r) => r,
        Mark::Plain => 0,
        Mark::Monitor(_) => 0,
    }
}

/// The scan of a resource from its first barred process on, at the line of the resource's final `end`, ahead of the guard of a block.
fn scan_ahead<'t>(
    program: &Program<'t>,
    block: &'t Block<'t>,
    resource: u32,
    procedure: u32,
) -> Scan<'t>
    ensures { (t : Tables) → scan_view t result ≡ record {
      resource = resource;
      line = get_or program.now.resource_ends.items resource 0;
      after = None;
      way =
          way_in resource procedure (block_view t block.now).guard;
    } }
{
    let line = match program.resource_ends.get(resource as usize) {
        Some(line) => *line,
        None => 0,
    };
    Scan {
        resource,
        line,
        after: None,
        own: bar_at(block, resource, procedure),
    }
}

/// The process has this at hand in an activation of the block in place of its innermost, with the arguments in it; its action is not yet
/// counted. Want of memory changes nothing that is to be seen.
fn give_way<'t>(
    alloc: Global,
    source: &Source<'t>,
    state: &mut State<'t>,
    p: u32,
    block: &Block<'t>,
    innermost: Innermost,
    cells: u64,
    doing: Doing<'t>,
    args: &[Argument],
) -> Result<(), Memory>
    requires within { p < length state.old.activities.items }
    requires cells { HasCellsInstead state.old p block.now cells }
    requires innermost { IsInnermostOf state.old p innermost.number (mark_view innermost.mark) }
    ensures ok { OnOk result (GivesWay source.now state.old state.new p block.now innermost.number (mark_view innermost.mark) doing.entry args.now) }
    ensures kept { OnOk result (KeepsOthers state.old state.new) }
    ensures err { OnErr result (StaysAt state.old state.new p) }
{
    let number = state.world.done() + 1;
    if number == innermost.number {
        return Err(Memory);
    }
    let types = source.program.tables.types;
    let display = &state.activities[p as usize].display;
    let beginning = prepare(alloc, types, &state.store, display, number, block, args)?;
    state.store.add(number, beginning.values)?;
    state.store.remove(innermost.number);
    let other = Other {
        number,
        scope: block.scope,
        cells,
    };
    replace(
        &mut state.activities[p as usize],
        other,
        doing,
        beginning.display,
    );
    Ok(())
}

/// The process has this at hand, in another activation in place of its innermost.
fn replace<'t>(activity: &mut Activity<'t>, other: Other, doing: Doing<'t>, display: Display)
    ensures { (t : Tables) → activity_shown t activity.new ≡ record {
      next = doing_ahead t doing.entry;
      display = display;
      activations =
          instead other.number other.scope other.cells (activations_view t activity.old.activations.items);
      hand = empty_hand;
      line = activity.old.line;
    } }
{
    activity.doing = doing;
    activity.display = display;
    activity.hand = Hand::Empty;
    replace_last(&mut activity.activations, other);
}

/// The innermost activation is another; its caller, its mark and the display behind it stay.
fn replace_last<'t>(activations: &mut Vec<Activation<'t>>, other: Other)
    ensures { (t : Tables) → activations_view t activations.new.items ≡ instead other.number other.scope other.cells
        (activations_view t activations.old.items) }
{
    if let Some(last) = activations.last_mut() {
        last.number = other.number;
        last.scope = other.scope;
        last.cells = other.cells;
    }
}
