//! Actions on the input.
ghost use Rattle.std.specs.Prelude.{◌≡◌, [], IfOk, IfErr, OnErr};
ghost use Rattle.pfc_pending.specs.declared.actions.Deed.TheVariants as deed;
ghost use Rattle.pfc_activities.specs.Relation.{MayAct, IsPerformed};

use pfc_activities::{Done, State};
use pfc_facts::simple_of;
use pfc_pending::At;
use pfc_store::{Spot, Value};
use pfc_types::TypeId;
use pfc_values::truth;
use std::alloc::Global;

/// An item is read into a variable of this type. A fault reads nothing, and want of memory changes nothing.
pub fn inputs<'t>(
    alloc: Global,
    state: &mut State<'t>,
    p: u32,
    t: Option<TypeId>,
    spot: Spot,
) -> Result<Done, Spot>
    requires { MayAct state.old p }
    ensures ok { IfOk result (λ d. IsPerformed state.old state.new p (deed.Inputs t spot) [] d) }
    ensures err { OnErr result (state.new ≡ state.old) }
    ensures given { IfErr result (λ given. given ≡ spot) }
{
    let display = &state.activities[p as usize].display;
    let Ok(location) = state.store.located(alloc, display, &spot) else {
        return Err(spot);
    };
    match state.input.item(simple_of(t)) {
        Ok(n) => {
            state.store.put(&location, Value::of(i64::from(n)));
            Ok(state.go_on(p, At::Rest))
        }
        Err(fault) => Ok(state.end_in_fault(p, fault)),
    }
}

/// The rest of a line is passed. A fault passes nothing.
pub fn skips<'t>(state: &mut State<'t>, p: u32) -> Done
    requires { MayAct state.old p }
    ensures { IsPerformed state.old state.new p deed.Skips [] result }
{
    match state.input.skip_line() {
        Ok(()) => state.go_on(p, At::Rest),
        Err(fault) => state.end_in_fault(p, fault),
    }
}

/// Whether the input is at its end.
pub fn asks_eof<'t>(state: &mut State<'t>, p: u32) -> Done
    requires { MayAct state.old p }
    ensures { IsPerformed state.old state.new p deed.AsksEof [] result }
{
    let is_at_end = state.input.is_at_end();
    state.go_on(p, At::Value(Value::of(truth(is_at_end))))
}

/// Whether the input is at the end of a line.
pub fn asks_eoln<'t>(state: &mut State<'t>, p: u32) -> Done
    requires { MayAct state.old p }
    ensures { IsPerformed state.old state.new p deed.AsksEoln [] result }
{
    let is_at_end = state.input.is_at_line_end();
    state.go_on(p, At::Value(Value::of(truth(is_at_end))))
}
