//! The end of a body.
ghost use Rattle.std.specs.Prelude.{◌≡◌, ◌<◌, true, Some, [], length, IfOk, IfErr, OnErr};
ghost use Rattle.pfc_world.specs.Holders.{holder_in};
ghost use Rattle.pfc_pending.specs.declared.actions.Deed.TheVariants as deed;
ghost use Rattle.pfc_activities.specs.Relation.{MayAct, Performs, IsPerformed, StaysAt};
ghost use Rattle.pfc_returning.specs.Ways.{IsWay};
ghost use Rattle.pfc_returning.specs.declared.ways.Way.TheVariants as way;

use crate::back::go_back_from;
use crate::ends::end_process;
use crate::results::result_in;
use crate::scans::{end_of, put_scan};
use crate::ways::{Way, way_back};
use pfc_activities::{Done, Source, State};
use pfc_base::Memory;
use pfc_monitor::Monitors;
use pfc_store::Value;
use pfc_waiting::leave_by;
use std::alloc::Global;

/// The end of a body, whose `end` has this line: that of its activation, and of the process where that is its first. A return goes back to the
/// caller; from a monitor it hands over, and from a resource a scan comes behind it. Want of memory changes nothing that is to be seen; a
/// process that leaves a monitor and does not hold it, which never comes, counts as one.
pub fn finishes<'t>(
    alloc: Global,
    source: &Source<'t>,
    state: &mut State<'t>,
    p: u32,
    line: u32,
) -> Result<Done, u32>
    requires { MayAct state.old p }
    ensures ok { IfOk result (λ d. Performs source.now state.old state.new p (deed.Finishes line) [] d) }
    ensures err { OnErr result (StaysAt state.old state.new p) }
    ensures given { IfErr result (λ given. given ≡ line) }
{
    match end_body(alloc, source, state, p, line) {
        Ok(done) => Ok(done),
        Err(Memory) => Err(line),
    }
}

/// The same, where want of memory gives nothing back.
fn end_body<'t>(
    alloc: Global,
    source: &Source<'t>,
    state: &mut State<'t>,
    p: u32,
    line: u32,
) -> Result<Done, Memory>
    requires { MayAct state.old p }
    ensures ok { IfOk result (λ d. Performs source.now state.old state.new p (deed.Finishes line) [] d) }
    ensures err { OnErr result (StaysAt state.old state.new p) }
{
    match way_back(state, p) {
        Way::Process => Ok(end_process(alloc, state, p, line)),
        Way::Statement(number) => Ok(return_to_statement(state, p, number, line)),
        Way::Value(number, scope) => return_value(alloc, source, state, p, number, scope, line),
        Way::Monitor(number, m) => return_from_monitor(state, p, number, m, line),
        Way::Resource(number, r) => {
            return_from_resource(alloc, source, state, p, number, r, line)
        }
    }
}

/// The return of a procedure, in the activation with this number.
fn return_to_statement<'t>(state: &mut State<'t>, p: u32, number: u64, line: u32) -> Done
    requires may { MayAct state.old p }
    requires way { IsWay state.old p (way.Statement number) }
    ensures { IsPerformed state.old state.new p (deed.Finishes line) [] result }
{
    go_back_from(state, p, number, Value::of(0), line)
}

/// The return of a function, whose scope has this number, with its result. Its only refusal is want of memory.
fn return_value<'t>(
    alloc: Global,
    source: &Source<'t>,
    state: &mut State<'t>,
    p: u32,
    number: u64,
    scope: u32,
    line: u32,
) -> Result<Done, Memory>
    requires may { MayAct state.old p }
    requires way { IsWay state.old p (way.Value number scope) }
    ensures ok { IfOk result (λ d. Performs source.now state.old state.new p (deed.Finishes line) [] d) }
    ensures err { OnErr result (StaysAt state.old state.new p) }
{
    let scopes = source.program.tables.scopes;
    let value = result_in(alloc, scopes, &state.store, number, scope)?;
    Ok(go_back_from(state, p, number, value, line))
}

/// The return from a monitor, which hands that over. Where the process does not hold it, which never comes, nothing changes, and it counts as
/// want of memory.
fn return_from_monitor<'t>(
    state: &mut State<'t>,
    p: u32,
    number: u64,
    m: u32,
    line: u32,
) -> Result<Done, Memory>
    requires may { MayAct state.old p }
    requires way { IsWay state.old p (way.Monitor number m) }
    ensures ok { IfOk result (λ d. IsPerformed state.old state.new p (deed.Finishes line) [] d) }
    ensures err { OnErr result (state.new ≡ state.old) }
{
    if !is_held_by(&state.monitors, m, p) {
        return Err(Memory);
    }
    leave_by(&mut state.world, &mut state.monitors, p, m);
    Ok(go_back_from(state, p, number, Value::of(0), line))
}

/// Whether there is such a monitor, and the process holds it.
fn is_held_by(mons: &Monitors, m: u32, p: u32) -> bool
    ensures known { result ≡ true → m < length mons.now.holders }
    ensures holds { result ≡ true → holder_in mons.now.holders m ≡ Some p }
{
    if !mons.has(m) {
        return false;
    }
    match mons.holder(m) {
        Some(q) => q == p,
        None => false,
    }
}

/// The return from a resource, behind which a scan comes. Its only refusal is want of memory.
fn return_from_resource<'t>(
    alloc: Global,
    source: &Source<'t>,
    state: &mut State<'t>,
    p: u32,
    number: u64,
    r: u32,
    line: u32,
) -> Result<Done, Memory>
    requires may { MayAct state.old p }
    requires way { IsWay state.old p (way.Resource number r) }
    ensures ok { IfOk result (λ d. Performs source.now state.old state.new p (deed.Finishes line) [] d) }
    ensures err { OnErr result (StaysAt state.old state.new p) }
{
    let end = end_of(source, r);
    put_scan(alloc, &mut state.activities[p as usize], r, end)?;
    Ok(go_back_from(state, p, number, Value::of(0), line))
}
