//! Actions that touch nothing outside the process but the clock and the draws.
ghost use Rattle.std.specs.Prelude.{◌≡◌, ◌/◌, pos, []};
ghost use Rattle.pfc_values.specs.Numbers.{fitting};
ghost use Rattle.pfc_pending.specs.declared.actions.Deed.TheVariants as deed;
ghost use Rattle.pfc_activities.specs.Relation.{MayAct, IsPerformed};

use pfc_activities::{Done, State};
use pfc_base::RunFault;
use pfc_pending::At;
use pfc_store::Value;

/// The way back of a loop.
pub fn turns<'t>(state: &mut State<'t>, p: u32) -> Done
    requires { MayAct state.old p }
    ensures { IsPerformed state.old state.new p deed.Turns [] result }
{
    state.go_on(p, At::Rest)
}

/// A fault.
pub fn faults<'t>(state: &mut State<'t>, p: u32, fault: RunFault) -> Done
    requires { MayAct state.old p }
    ensures { IsPerformed state.old state.new p (deed.Faults fault) [] result }
{
    state.end_in_fault(p, fault)
}

/// A number is drawn: the fault is that of a negative argument.
pub fn draws<'t>(state: &mut State<'t>, p: u32, n: i64) -> Done
    requires { MayAct state.old p }
    ensures { IsPerformed state.old state.new p (deed.Draws n) [] result }
{
    match state.draws.draw(n) {
        Ok(drawn) => state.go_on(p, At::Value(Value::of(drawn))),
        Err(fault) => state.end_in_fault(p, fault),
    }
}

/// The clock in whole seconds, which is an overflow where it does not fit in 32 bits.
fn seconds(moment: u64) -> Result<i64, RunFault>
    ensures { result ≡ fitting (pos (moment / 1000)) }
{
    let seconds = moment / 1000;
    if seconds <= 2_147_483_647 {
        Ok(seconds as i64)
    } else {
        Err(RunFault::Overflow)
    }
}

/// The clock is read.
pub fn asks_clock<'t>(state: &mut State<'t>, p: u32) -> Done
    requires { MayAct state.old p }
    ensures { IsPerformed state.old state.new p deed.AsksClock [] result }
{
    match seconds(state.world.now()) {
        Ok(n) => state.go_on(p, At::Value(Value::of(n))),
        Err(fault) => state.end_in_fault(p, fault),
    }
}
