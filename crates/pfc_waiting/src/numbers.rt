//! The numbers of the objects that spots name.
ghost use Rattle.std.specs.Prelude.{◌≡◌, ◌<◌, length, IfSome};
ghost use Rattle.pfc_activities.specs.declared.activities.Activity.{Activity};
ghost use Rattle.pfc_activities.specs.Relation.{IsIn};
ghost use Rattle.pfc_waiting.specs.Waiting.{IsNumber};

use pfc_activities::State;
use pfc_store::Spot;

/// The number of the object that a spot names for the process: that is no read. None where it does not fit, which never comes. It takes no
/// memory.
pub(crate) fn number_for<'t>(state: &State<'t>, p: u32, spot: &Spot) -> Option<u32>
    requires { p < length state.now.activities.items }
    ensures { IfSome result (λ n. IsNumber state.now p spot.now n) }
{
    let display = &state.activities[p as usize].display;
    let n = state.store.ordinal_in(display, spot).unsigned_abs();
    if n > 4_294_967_295 {
        return None;
    }
    Some(n as u32)
}

/// The semaphore that a spot names for the process; None where there is none, which never comes.
pub(crate) fn semaphore_for<'t>(state: &State<'t>, p: u32, spot: &Spot) -> Option<u32>
    requires { p < length state.now.activities.items }
    ensures number { IfSome result (λ n. IsNumber state.now p spot.now n) }
    ensures known { IfSome result (λ n. n < length state.now.semaphores) }
{
    let n = number_for(state, p, spot)?;
    if !state.semaphores.has(n) {
        return None;
    }
    Some(n)
}

/// The condition that a spot names for the process; None where there is none, which never comes.
pub(crate) fn condition_for<'t>(state: &State<'t>, p: u32, spot: &Spot) -> Option<u32>
    requires { p < length state.now.activities.items }
    ensures number { IfSome result (λ n. IsNumber state.now p spot.now n) }
    ensures known { IfSome result (λ n. n < length state.now.monitors.owners) }
{
    let n = number_for(state, p, spot)?;
    if !state.monitors.has_condition(n) {
        return None;
    }
    Some(n)
}

/// The number in 32 bits; None where it does not fit, which never comes for the value of an expression.
pub(crate) fn in_32_bits(n: i64) -> Option<i32>
    ensures { IfSome result (λ m. m ≡ n) }
{
    if n < -2_147_483_648 || n > 2_147_483_647 {
        return None;
    }
    Some(n as i32)
}
