//! Where a part of an alternative has its value, or its replica is written.
ghost use Rattle.std.specs.Prelude.{◌≡◌, IfOk, IfErr};
ghost use Rattle.pfc_types.specs.rules.Expressions.{Env as Known};
ghost use Rattle.pfc_semantics.specs.Remainders.{Context};
ghost use Rattle.pfc_semantics.specs.Rewriting.{from_remainder, from_value};
ghost use Rattle.pfc_program.specs.declared.tables.Tables.{Tables};
ghost use Rattle.pfc_store.specs.Views.{value_view};
ghost use Rattle.pfc_pending.specs.Ahead.{begun_ahead, step_ahead};
ghost use Rattle.pfc_pending.specs.Waiting.{Waiting, awaits_of, over, remainder_of};
ghost use Rattle.pfc_pending.specs.declared.pending.Pending.TheVariants as pending;

use crate::offers::{keep_open, reserve};
use pfc_base::RunFault;
use pfc_pending::{At, Begun, Choosing, Deed, Offer, Step};
use pfc_store::{Spot, Value};
use pfc_values::is_true;

/// The replica of an alternative is written: its guard comes next, on the line of the select.
pub fn go_through<'t>(line: u32, choosing: Box<Choosing<'t>>) -> Begun<'t>
    ensures { (t : Tables) (env : Known) (w : Waiting) →
        begun_ahead t env w result ≡ from_remainder env (remainder_of (over t w (pending.GoThrough line choosing.entry))) }
{
    Begun {
        line,
        step: Step::On(At::Guarded(choosing)),
    }
}

/// The guard of an alternative: the alternative is open where it is true.
pub fn open_if<'t>(choosing: Box<Choosing<'t>>, v: &Value) -> Step<'t>
    ensures { (t : Tables) (c : Context) (w : Waiting) →
        step_ahead t c w result ≡ from_value c (awaits_of (over t w (pending.OpenIf choosing.entry))) (value_view v.now) }
{
    if is_true(v.ordinal()) {
        Step::On(At::Opened(choosing))
    } else {
        Step::On(At::Alternatives(choosing))
    }
}

/// The message of `c ! e`: the alternative is open. Its only refusal is want of memory, which gives all back, standing for the same.
#[tactic(auto, using(crate::proofs::Rules::kept))]
pub fn offer_value<'t>(
    channel: Spot,
    mut choosing: Box<Choosing<'t>>,
    v: Value,
) -> Result<Step<'t>, (Spot, Box<Choosing<'t>>, Value)>
    ensures ok { IfOk result (λ step. (t : Tables) (c : Context) (w : Waiting) →
        step_ahead t c w step ≡ from_value c (awaits_of (over t w (pending.OfferValue channel choosing.entry))) (value_view v)) }
    ensures waits { IfErr result (λ b. (t : Tables) (w : Waiting) →
        over t w (pending.OfferValue b.0 b.1) ≡ over t w (pending.OfferValue channel choosing.entry)) }
    ensures value { IfErr result (λ b. b.2 ≡ v) }
{
    match reserve(&mut choosing) {
        Ok(next) => Ok(keep_open(choosing, next, Offer::Send(channel, v))),
        Err(_) => Err((channel, choosing, v)),
    }
}

/// The seconds of `timeout e`: the alternative is open; a negative number is a fault. Its only refusal is want of memory, which gives
/// the select back, standing for the same.
#[tactic(auto, using(crate::proofs::Rules::kept))]
pub fn offer_wait<'t>(
    mut choosing: Box<Choosing<'t>>,
    v: &Value,
) -> Result<Step<'t>, Box<Choosing<'t>>>
    ensures ok { IfOk result (λ step. (t : Tables) (c : Context) (w : Waiting) →
        step_ahead t c w step ≡ from_value c (awaits_of (over t w (pending.OfferWait choosing.entry))) (value_view v.now)) }
    ensures waits { IfErr result (λ b. (t : Tables) (w : Waiting) → over t w (pending.OfferWait b) ≡ over t w (pending.OfferWait choosing.entry)) }
{
    let seconds = v.ordinal();
    if seconds < 0 {
        return Ok(Step::On(At::Deed(Deed::Faults(RunFault::Below))));
    }
    match reserve(&mut choosing) {
        Ok(next) => Ok(keep_open(choosing, next, Offer::Wait(seconds))),
        Err(_) => Err(choosing),
    }
}
