//! Calls of procedures and functions of the program.
ghost use Rattle.std.specs.Prelude.{◌≡◌, [], IfOk, IfErr, OnErr};
ghost use Rattle.pfc_pending.specs.declared.actions.Deed.TheVariants as deed;
ghost use Rattle.pfc_pending.specs.declared.pending.Callee.TheVariants as callee;
ghost use Rattle.pfc_activities.specs.Relation.{MayAct, Performs, StaysAt};
ghost use Rattle.pfc_activating.specs.Calling.{IsCalled};

use crate::{Entry, Waits, activate, at_body, cells_for, end_at};
use pfc_activities::{Done, Mark, Source, State};
use pfc_base::{Memory, RunFault};
use pfc_pending::Argument;
use std::alloc::Global;

/// A call of a procedure of the program, by its scope. Want of memory changes nothing that is to be seen, and gives the arguments back.
pub fn calls_procedure<'t>(
    alloc: Global,
    source: &Source<'t>,
    state: &mut State<'t>,
    p: u32,
    scope: u32,
    args: Vec<Argument>,
) -> Result<Done, Vec<Argument>>
    requires { MayAct state.old p }
    ensures ok { IfOk result (λ d. Performs source.now state.old state.new p (deed.Calls (callee.Procedure scope) args) [] d) }
    ensures err { OnErr result (StaysAt state.old state.new p) }
    ensures given { IfErr result (λ given. given ≡ args) }
{
    match called(alloc, source, state, p, scope, Waits::Statement, &args) {
        Ok(done) => Ok(done),
        Err(Memory) => Err(args),
    }
}

/// A call of a function of the program, by its scope. Want of memory changes nothing that is to be seen, and gives the arguments back.
pub fn calls_function<'t>(
    alloc: Global,
    source: &Source<'t>,
    state: &mut State<'t>,
    p: u32,
    scope: u32,
    args: Vec<Argument>,
) -> Result<Done, Vec<Argument>>
    requires { MayAct state.old p }
    ensures ok { IfOk result (λ d. Performs source.now state.old state.new p (deed.Calls (callee.Function scope) args) [] d) }
    ensures err { OnErr result (StaysAt state.old state.new p) }
    ensures given { IfErr result (λ given. given ≡ args) }
{
    match called(alloc, source, state, p, scope, Waits::Value, &args) {
        Ok(done) => Ok(done),
        Err(Memory) => Err(args),
    }
}

/// A call of a sub of the program, by its scope: fault 6 where its process would have too many cells. Its only refusal is want of memory.
fn called<'t>(
    alloc: Global,
    source: &Source<'t>,
    state: &mut State<'t>,
    p: u32,
    scope: u32,
    waits: Waits,
    args: &[Argument],
) -> Result<Done, Memory>
    requires { MayAct state.old p }
    ensures ok { IfOk result (λ d. IsCalled source.now state.old state.new p scope waits args.now d) }
    ensures err { OnErr result (StaysAt state.old state.new p) }
{
    let block = source.program.block_at(scope);
    let Some(cells) = cells_for(state, p, block) else {
        return Ok(state.end_in_fault(p, RunFault::Stack));
    };
    let line = state.line_of(p);
    let entry = Entry {
        mark: Mark::Plain,
        waits,
        cells,
    };
    let doing = at_body(alloc, block)?;
    activate(alloc, source, state, p, block, entry, doing, args)?;
    Ok(end_at(state, p, line))
}
