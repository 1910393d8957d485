//! Reads and writes of variables.
ghost use Rattle.std.specs.Prelude.{◌≡◌, [], IfOk, IfErr, OnErr};
ghost use Rattle.pfc_pending.specs.declared.actions.Deed.TheVariants as deed;
ghost use Rattle.pfc_activities.specs.Relation.{MayAct, IsPerformed};

use pfc_activities::{Done, State};
use pfc_pending::At;
use pfc_store::{Spot, Value};
use std::alloc::Global;

/// A variable is read, whole or a part of it: its value is at hand. Want of memory changes nothing.
pub fn reads<'t>(alloc: Global, state: &mut State<'t>, p: u32, spot: Spot) -> Result<Done, Spot>
    requires { MayAct state.old p }
    ensures ok { IfOk result (λ d. IsPerformed state.old state.new p (deed.Reads spot) [] d) }
    ensures err { OnErr result (state.new ≡ state.old) }
    ensures given { IfErr result (λ given. given ≡ spot) }
{
    let display = &state.activities[p as usize].display;
    let Ok(value) = state.store.value_in(alloc, display, &spot) else {
        return Err(spot);
    };
    Ok(state.go_on(p, At::Value(value)))
}

/// A value is written to a variable or to a part of one. Want of memory changes nothing.
pub fn writes<'t>(
    alloc: Global,
    state: &mut State<'t>,
    p: u32,
    spot: Spot,
    value: Value,
) -> Result<Done, (Spot, Value)>
    requires { MayAct state.old p }
    ensures ok { IfOk result (λ d. IsPerformed state.old state.new p (deed.Writes spot value) [] d) }
    ensures err { OnErr result (state.new ≡ state.old) }
    ensures given { IfErr result (λ given. given ≡ (spot, value)) }
{
    let display = &state.activities[p as usize].display;
    let Ok(location) = state.store.located(alloc, display, &spot) else {
        return Err((spot, value));
    };
    state.store.put(&location, value);
    Ok(state.go_on(p, At::Rest))
}
