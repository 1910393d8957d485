//! Actions on semaphores.
ghost use Rattle.std.specs.Prelude.{◌≡◌, [], IfOk, IfErr, OnErr};
ghost use Rattle.pfc_pending.specs.declared.actions.Deed.TheVariants as deed;
ghost use Rattle.pfc_activities.specs.Relation.{MayAct, IsPerformed};

use crate::going::go_on_when_ready;
use crate::numbers::{in_32_bits, semaphore_for};
use crate::rules::{signal_by, wait_by};
use pfc_activities::{Done, State};
use pfc_pass::sem_initial;
use pfc_pending::At;
use pfc_store::Spot;

/// `wait(s)`: a positive count falls by 1, and at 0 the process waits. A semaphore that is none, which never comes, counts as want of
/// memory, and changes nothing.
pub fn waits<'t>(state: &mut State<'t>, p: u32, spot: Spot) -> Result<Done, Spot>
    requires { MayAct state.old p }
    ensures ok { IfOk result (λ d. IsPerformed state.old state.new p (deed.Waits spot) [] d) }
    ensures err { OnErr result (state.new ≡ state.old) }
    ensures given { IfErr result (λ given. given ≡ spot) }
{
    let Some(s) = semaphore_for(state, p, &spot) else {
        return Err(spot);
    };
    wait_by(&mut state.world, &mut state.semaphores, p, s);
    Ok(go_on_when_ready(state, p, At::Rest))
}

/// `initial(s, n)`: the count becomes n; the fault is that of a number below 0. A semaphore that is none, and a number that does not fit,
/// which never come, count as want of memory, and change nothing.
pub fn initials<'t>(state: &mut State<'t>, p: u32, spot: Spot, n: i64) -> Result<Done, Spot>
    requires { MayAct state.old p }
    ensures ok { IfOk result (λ d. IsPerformed state.old state.new p (deed.Initials spot n) [] d) }
    ensures err { OnErr result (state.new ≡ state.old) }
    ensures given { IfErr result (λ given. given ≡ spot) }
{
    let Some(s) = semaphore_for(state, p, &spot) else {
        return Err(spot);
    };
    let Some(count) = in_32_bits(n) else {
        return Err(spot);
    };
    match sem_initial(&mut state.semaphores, s, count) {
        Ok(()) => Ok(go_on_when_ready(state, p, At::Rest)),
        Err(fault) => Ok(state.end_in_fault(p, fault)),
    }
}

/// `signal(s)`: the process that has waited longest is ready, and the count stays; without a waiter the count rises by 1, and the fault is
/// that of a count too large. A semaphore that is none, which never comes, counts as want of memory, and changes nothing.
pub fn signals<'t>(state: &mut State<'t>, p: u32, spot: Spot) -> Result<Done, Spot>
    requires { MayAct state.old p }
    ensures ok { IfOk result (λ d. IsPerformed state.old state.new p (deed.Signals spot) [] d) }
    ensures err { OnErr result (state.new ≡ state.old) }
    ensures given { IfErr result (λ given. given ≡ spot) }
{
    let Some(s) = semaphore_for(state, p, &spot) else {
        return Err(spot);
    };
    match signal_by(&mut state.world, &mut state.semaphores, s) {
        Ok(_) => Ok(go_on_when_ready(state, p, At::Rest)),
        Err(fault) => Ok(state.end_in_fault(p, fault)),
    }
}
