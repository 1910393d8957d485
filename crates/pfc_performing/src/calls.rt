//! Calls, and the ends of bodies.
ghost use Rattle.pfc_pending.specs.declared.actions.Deed.TheVariants as deed;
ghost use Rattle.pfc_pending.specs.declared.pending.Callee.TheVariants as callee;
ghost use Rattle.pfc_activities.specs.Relation.{MayAct};
ghost use Rattle.pfc_performing.specs.Performing.{IsTried};

use pfc_accepting::enters;
use pfc_activating::{calls_function, calls_procedure};
use pfc_activities::{Done, Source, State};
use pfc_creating::creates;
use pfc_entering::calls_module;
use pfc_pending::{Argument, Callee, Deed};
use pfc_requeueing::requeues;
use pfc_returning::finishes;
use pfc_store::Spot;
use std::alloc::Global;

fn call_procedure<'t>(
    alloc: Global,
    source: &Source<'t>,
    state: &mut State<'t>,
    p: u32,
    scope: u32,
    args: Vec<Argument>,
) -> Result<Done, Deed<'t>>
    requires { MayAct state.old p }
    ensures { IsTried source.now state.old state.new p (deed.Calls (callee.Procedure scope) args) result }
{
    match calls_procedure(alloc, source, state, p, scope, args) {
        Ok(done) => Ok(done),
        Err(args) => Err(Deed::Calls(Callee::Procedure(scope), args)),
    }
}

fn call_function<'t>(
    alloc: Global,
    source: &Source<'t>,
    state: &mut State<'t>,
    p: u32,
    scope: u32,
    args: Vec<Argument>,
) -> Result<Done, Deed<'t>>
    requires { MayAct state.old p }
    ensures { IsTried source.now state.old state.new p (deed.Calls (callee.Function scope) args) result }
{
    match calls_function(alloc, source, state, p, scope, args) {
        Ok(done) => Ok(done),
        Err(args) => Err(Deed::Calls(Callee::Function(scope), args)),
    }
}

fn call_module<'t>(
    alloc: Global,
    source: &'t Source<'t>,
    state: &mut State<'t>,
    p: u32,
    n: u32,
    scope: u32,
    args: Vec<Argument>,
) -> Result<Done, Deed<'t>>
    requires { MayAct state.old p }
    ensures { IsTried source.now state.old state.new p (deed.Calls (callee.Module n scope) args) result }
{
    match calls_module(alloc, source, state, p, n, scope, args) {
        Ok(done) => Ok(done),
        Err(args) => Err(Deed::Calls(Callee::Module(n, scope), args)),
    }
}

fn requeue<'t>(
    alloc: Global,
    source: &'t Source<'t>,
    state: &mut State<'t>,
    p: u32,
    scope: u32,
    args: Vec<Argument>,
) -> Result<Done, Deed<'t>>
    requires { MayAct state.old p }
    ensures { IsTried source.now state.old state.new p (deed.Calls (callee.Requeue scope) args) result }
{
    match requeues(alloc, source, state, p, scope, args) {
        Ok(done) => Ok(done),
        Err(args) => Err(Deed::Calls(Callee::Requeue(scope), args)),
    }
}

fn create<'t>(
    alloc: Global,
    source: &Source<'t>,
    state: &mut State<'t>,
    p: u32,
    spot: Spot,
    args: Vec<Argument>,
) -> Result<Done, Deed<'t>>
    requires { MayAct state.old p }
    ensures { IsTried source.now state.old state.new p (deed.Calls (callee.Process spot) args) result }
{
    match creates(alloc, source, state, p, spot, args) {
        Ok(done) => Ok(done),
        Err((spot, args)) => Err(Deed::Calls(Callee::Process(spot), args)),
    }
}

fn call_entry<'t>(
    alloc: Global,
    source: &Source<'t>,
    state: &mut State<'t>,
    p: u32,
    spot: Spot,
    entry: u32,
    args: Vec<Argument>,
) -> Result<Done, Deed<'t>>
    requires { MayAct state.old p }
    ensures { IsTried source.now state.old state.new p (deed.Calls (callee.Entry spot entry) args) result }
{
    match enters(alloc, source, state, p, spot, entry, args) {
        Ok(done) => Ok(done),
        Err((spot, args)) => Err(Deed::Calls(Callee::Entry(spot, entry), args)),
    }
}

/// A call of any kind.
pub(crate) fn call<'t>(
    alloc: Global,
    source: &'t Source<'t>,
    state: &mut State<'t>,
    p: u32,
    callee: Callee,
    args: Vec<Argument>,
) -> Result<Done, Deed<'t>>
    requires { MayAct state.old p }
    ensures { IsTried source.now state.old state.new p (deed.Calls callee args) result }
{
    match callee {
        Callee::Procedure(scope) => call_procedure(alloc, source, state, p, scope, args),
        Callee::Function(scope) => call_function(alloc, source, state, p, scope, args),
        Callee::Module(n, scope) => call_module(alloc, source, state, p, n, scope, args),
        Callee::Requeue(scope) => requeue(alloc, source, state, p, scope, args),
        Callee::Process(spot) => create(alloc, source, state, p, spot, args),
        Callee::Entry(spot, entry) => call_entry(alloc, source, state, p, spot, entry, args),
    }
}

pub(crate) fn finish<'t>(
    alloc: Global,
    source: &Source<'t>,
    state: &mut State<'t>,
    p: u32,
    line: u32,
) -> Result<Done, Deed<'t>>
    requires { MayAct state.old p }
    ensures { IsTried source.now state.old state.new p (deed.Finishes line) result }
{
    match finishes(alloc, source, state, p, line) {
        Ok(done) => Ok(done),
        Err(line) => Err(Deed::Finishes(line)),
    }
}
