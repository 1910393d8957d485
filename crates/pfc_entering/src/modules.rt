//! Calls of exported procedures of monitors and resources from outside.
ghost use Rattle.std.specs.Prelude.{◌≡◌, [], IfOk, IfErr, OnErr};
ghost use Rattle.pfc_pending.specs.declared.actions.Deed.TheVariants as deed;
ghost use Rattle.pfc_pending.specs.declared.pending.Callee.TheVariants as callee;
ghost use Rattle.pfc_activities.specs.Relation.{MayAct, Performs, StaysAt};
ghost use Rattle.pfc_entering.specs.Entering.{EntersModule, EntersMonitor, EntersResource};

use crate::enter_resource_by;
use crate::guards::{at_guarded_body, procedure_of};
use pfc_activating::{Entry, Waits, activate, at_body, cells_for, end_at};
use pfc_activities::{Done, Mark, Source, State};
use pfc_base::{Memory, RunFault};
use pfc_pending::Argument;
use pfc_program::module_number;
use pfc_waiting::enter_by;
use std::alloc::Global;

/// A call of an exported procedure, by its scope, from outside its module, by the module's number among all: fault 6 where its process
/// would have too many cells. The process has the monitor or the resource where that is free, and else waits as an entrant. Want of memory
/// changes nothing that is to be seen, and gives the arguments back; a module that is none, which never comes, counts as one.
pub fn calls_module<'t>(
    alloc: Global,
    source: &'t Source<'t>,
    state: &mut State<'t>,
    p: u32,
    n: u32,
    scope: u32,
    args: Vec<Argument>,
) -> Result<Done, Vec<Argument>>
    requires { MayAct state.old p }
    ensures ok { IfOk result (λ d. Performs source.now state.old state.new p (deed.Calls (callee.Module n scope) args) [] d) }
    ensures err { OnErr result (StaysAt state.old state.new p) }
    ensures given { IfErr result (λ given. given ≡ args) }
{
    match enters(alloc, source, state, p, n, scope, &args) {
        Ok(done) => Ok(done),
        Err(Memory) => Err(args),
    }
}

/// The same of the arguments alone.
fn enters<'t>(
    alloc: Global,
    source: &'t Source<'t>,
    state: &mut State<'t>,
    p: u32,
    n: u32,
    scope: u32,
    args: &[Argument],
) -> Result<Done, Memory>
    requires { MayAct state.old p }
    ensures ok { IfOk result (λ d. EntersModule source.now state.old state.new p n scope args.now d) }
    ensures err { OnErr result (StaysAt state.old state.new p) }
{
    let scopes = source.program.tables.scopes;
    let number = module_number(scopes, n);
    if scopes.module(n).resource {
        return enters_resource(alloc, source, state, p, number, scope, args);
    }
    enters_monitor(alloc, source, state, p, number, scope, args)
}

/// A call of a procedure of the monitor.
fn enters_monitor<'t>(
    alloc: Global,
    source: &'t Source<'t>,
    state: &mut State<'t>,
    p: u32,
    m: u32,
    scope: u32,
    args: &[Argument],
) -> Result<Done, Memory>
    requires { MayAct state.old p }
    ensures ok { IfOk result (λ d. EntersMonitor source.now state.old state.new p m scope args.now d) }
    ensures err { OnErr result (StaysAt state.old state.new p) }
{
    if !state.monitors.has(m) {
        return Err(Memory);
    }
    let block = source.program.block_at(scope);
    let Some(cells) = cells_for(state, p, block) else {
        return Ok(state.end_in_fault(p, RunFault::Stack));
    };
    let line = state.line_of(p);
    let entry = Entry {
        mark: Mark::Monitor(m),
        waits: Waits::Statement,
        cells,
    };
    let doing = at_body(alloc, block)?;
    activate(alloc, source, state, p, block, entry, doing, args)?;
    enter_by(&mut state.world, &mut state.monitors, p, m);
    Ok(end_at(state, p, line))
}

/// A call of a procedure of the resource, behind whose guard it is where it has one.
fn enters_resource<'t>(
    alloc: Global,
    source: &'t Source<'t>,
    state: &mut State<'t>,
    p: u32,
    r: u32,
    scope: u32,
    args: &[Argument],
) -> Result<Done, Memory>
    requires { MayAct state.old p }
    ensures ok { IfOk result (λ d. EntersResource source.now state.old state.new p r scope args.now d) }
    ensures err { OnErr result (StaysAt state.old state.new p) }
{
    if !state.resources.has(r) {
        return Err(Memory);
    }
    let block = source.program.block_at(scope);
    let Some(cells) = cells_for(state, p, block) else {
        return Ok(state.end_in_fault(p, RunFault::Stack));
    };
    let line = state.line_of(p);
    let entry = Entry {
        mark: Mark::Resource(r),
        waits: Waits::Statement,
        cells,
    };
    let procedure = procedure_of(&source.program, block)?;
    let doing = at_guarded_body(alloc, block, r, procedure)?;
    activate(alloc, source, state, p, block, entry, doing, args)?;
    enter_resource_by(&mut state.world, &mut state.resources, p, r);
    Ok(end_at(state, p, line))
}
