//! Actions on conditions.
ghost use Rattle.std.specs.Prelude.{◌≡◌, ◌<◌, [], length, IfOk, IfErr, OnErr};
ghost use Rattle.std.specs.List.{list_any};
ghost use Rattle.pfc_pending.specs.declared.actions.Deed.TheVariants as deed;
ghost use Rattle.pfc_semantics.specs.Monitors.{is_in as is_mark_of};
ghost use Rattle.pfc_activities.specs.Relation.{MayAct, IsPerformed};
ghost use Rattle.pfc_activities.specs.Views.{mark_view};
ghost use Rattle.pfc_waiting.specs.Inside.{is_held_in, IsInside};

use crate::going::go_on_when_ready;
use crate::numbers::{condition_for, in_32_bits, number_for};
use crate::rules::{block_by, delay_by, holds, resume_by};
use pfc_activities::{Activation, Done, Mark, State};
use pfc_monitor::is_empty;
use pfc_pending::At;
use pfc_store::{Spot, Value};
use pfc_values::truth;
use pfc_world::Why;

/// Whether the mark is that of the monitor.
fn is_in(mark: Mark, m: u32) -> bool
    ensures { result ≡ is_mark_of m (mark_view mark) }
{
    match mark {
        Mark::Monitor(n) => n == m,
        Mark::Plain => false,
        Mark::Resource(_) => false,
    }
}

/// Whether one of these activations is marked with the monitor.
fn is_held_in<'t>(activations: &[Activation<'t>], m: u32) -> bool
    ensures { result ≡ is_held_in m activations.now }
{
    activations.iter().any(|a| is_in(a.mark, m))
}

/// Whether the process has called a procedure of the monitor from outside, and is still in it.
fn is_inside<'t>(state: &State<'t>, p: u32, m: u32) -> bool
    requires { p < length state.now.activities.items }
    ensures { IsInside state.now p m result }
{
    is_held_in(&state.activities[p as usize].activations, m)
}

/// `empty(c)`: whether nobody waits on the condition. A number that does not fit, which never comes, counts as want of memory, and changes
/// nothing.
pub fn asks_empty<'t>(state: &mut State<'t>, p: u32, spot: Spot) -> Result<Done, Spot>
    requires { MayAct state.old p }
    ensures ok { IfOk result (λ d. IsPerformed state.old state.new p (deed.AsksEmpty spot) [] d) }
    ensures err { OnErr result (state.new ≡ state.old) }
    ensures given { IfErr result (λ given. given ≡ spot) }
{
    let Some(c) = number_for(state, p, &spot) else {
        return Err(spot);
    };
    let nobody = is_empty(&state.world, c);
    Ok(state.go_on(p, At::Value(Value::of(truth(nobody)))))
}

/// `delay(c, rank)`: the process waits on the condition with the rank, and hands the monitor over; in the monitor's own initialising body
/// the holder stays. A condition that is none, a rank that does not fit, and a process that is in a monitor and does not hold it, which never
/// come, count as want of memory, and change nothing.
pub fn delays<'t>(state: &mut State<'t>, p: u32, spot: Spot, rank: i64) -> Result<Done, Spot>
    requires { MayAct state.old p }
    ensures ok { IfOk result (λ d. IsPerformed state.old state.new p (deed.Delays spot rank) [] d) }
    ensures err { OnErr result (state.new ≡ state.old) }
    ensures given { IfErr result (λ given. given ≡ spot) }
{
    let Some(c) = condition_for(state, p, &spot) else {
        return Err(spot);
    };
    let Some(fitting) = in_32_bits(rank) else {
        return Err(spot);
    };
    let m = state.monitors.monitor_of(c);
    if !is_inside(state, p, m) {
        let why = Why::Condition {
            number: c,
            rank: fitting,
        };
        block_by(&mut state.world, p, why);
        return Ok(go_on_when_ready(state, p, At::Rest));
    }
    if !holds(&state.monitors, m, p) {
        return Err(spot);
    }
    delay_by(&mut state.world, &mut state.monitors, p, c, fitting);
    Ok(go_on_when_ready(state, p, At::Rest))
}

/// `resume(c)`: without a waiter nothing more happens; else the waiter of least rank, and at that rank of least ticket, has the monitor and is
/// ready, and the process waits as a resumer. A condition that is none, and one on which somebody waits whose monitor the process does not
/// hold, which never come, count as want of memory, and change nothing.
pub fn resumes<'t>(state: &mut State<'t>, p: u32, spot: Spot) -> Result<Done, Spot>
    requires { MayAct state.old p }
    ensures ok { IfOk result (λ d. IsPerformed state.old state.new p (deed.Resumes spot) [] d) }
    ensures err { OnErr result (state.new ≡ state.old) }
    ensures given { IfErr result (λ given. given ≡ spot) }
{
    let Some(c) = condition_for(state, p, &spot) else {
        return Err(spot);
    };
    if is_empty(&state.world, c) {
        return Ok(go_on_when_ready(state, p, At::Rest));
    }
    let m = state.monitors.monitor_of(c);
    if !holds(&state.monitors, m, p) {
        return Err(spot);
    }
    resume_by(&mut state.world, &mut state.monitors, p, c);
    Ok(go_on_when_ready(state, p, At::Rest))
}
