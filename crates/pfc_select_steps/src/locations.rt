//! Where the channel of an alternative, or the variable that receives, is found.
ghost use Rattle.std.specs.Prelude.{◌≡◌, ℕ, IfOk, IfErr};
ghost use Rattle.pfc_semantics.specs.Alternatives.{context};
ghost use Rattle.pfc_semantics.specs.Remainders.{Context};
ghost use Rattle.pfc_semantics.specs.Rewriting.{from_location};
ghost use Rattle.pfc_phrases.specs.Views.{env_view};
ghost use Rattle.pfc_program.specs.declared.tables.Tables.{Tables};
ghost use Rattle.pfc_store.specs.Views.{typed_spot_view};
ghost use Rattle.pfc_pending.specs.Ahead.{step_ahead};
ghost use Rattle.pfc_pending.specs.Waiting.{Waiting, goal_over};
ghost use Rattle.pfc_pending.specs.declared.pending.Goal.TheVariants as goal;

use crate::offers::{keep_open, reserve};
use pfc_pending::{At, Choosing, Goal, Offer, Pending, Step};
use pfc_sites::{Site, part};
use pfc_store::{Spot, TypedSpot, Value};
use pfc_tree::{Desig, Expr};

/// The channel of `c ! e`: the message comes next, or over a channel of `synchronous` the alternative is open. Its only refusal is want of
/// memory, which gives back what came and what waits for it, standing for the same.
#[tactic(auto, using(crate::proofs::Rules::locations))]
pub fn reach_to<'t>(
    spot: TypedSpot,
    message: Option<&'t Expr>,
    mut choosing: Box<Choosing<'t>>,
) -> Result<Step<'t>, (TypedSpot, Goal<'t>)>
    ensures ok { IfOk result (λ step. (t : Tables) (c : Context) (w : Waiting) →
        step_ahead t c w step ≡ from_location c (goal_over w (goal.OfferTo message.entry choosing.entry)) (typed_spot_view spot)) }
    ensures spot { IfErr result (λ b. b.0 ≡ spot) }
    ensures goal { IfErr result (λ b. (w : Waiting) → goal_over w b.1 ≡ goal_over w (goal.OfferTo message.entry choosing.entry)) }
{
    let Some(e) = message else {
        return match reserve(&mut choosing) {
            Ok(next) => Ok(keep_open(choosing, next, Offer::Send(spot.spot, Value::of(0)))),
            Err(_) => Err((spot, Goal::OfferTo(None, choosing))),
        }
    };
    Ok(Step::Under(Pending::OfferValue(spot.spot, choosing), At::Expr(e)))
}

/// The channel of `c ? v`: the variable comes next, or over a channel of `synchronous` the alternative is open. Its only refusal is want of
/// memory, which gives back what came and what waits for it, standing for the same.
#[tactic(auto, using(crate::proofs::Rules::locations))]
pub fn reach_from<'t>(
    spot: TypedSpot,
    receiver: Option<&'t Desig>,
    mut choosing: Box<Choosing<'t>>,
    site: Site<'t, '_>,
) -> Result<Step<'t>, (TypedSpot, Goal<'t>)>
    ensures ok { IfOk result (λ step. (t : Tables) (line : ℕ) (w : Waiting) → step_ahead t (context (env_view site.entry.env) line) w step ≡ from_location
        (context (env_view site.entry.env) line) (goal_over w (goal.OfferFrom receiver.entry choosing.entry)) (typed_spot_view spot)) }
    ensures spot { IfErr result (λ b. b.0 ≡ spot) }
    ensures goal { IfErr result (λ b. (w : Waiting) → goal_over w b.1 ≡ goal_over w (goal.OfferFrom receiver.entry choosing.entry)) }
{
    let Some(d) = receiver else {
        return match reserve(&mut choosing) {
            Ok(next) => Ok(keep_open(choosing, next, Offer::Receive(spot.spot, None))),
            Err(_) => Err((spot, Goal::OfferFrom(None, choosing))),
        }
    };
    Ok(Step::On(part(d, Goal::OfferInto(spot.spot, choosing), site)))
}

/// The variable of `c ? v`, whose channel was found: the alternative is open. Its only refusal is want of memory, which gives back what
/// came and what waits for it, standing for the same.
#[tactic(auto, using(crate::proofs::Rules::locations))]
pub fn reach_into<'t>(
    spot: TypedSpot,
    channel: Spot,
    mut choosing: Box<Choosing<'t>>,
) -> Result<Step<'t>, (TypedSpot, Goal<'t>)>
    ensures ok { IfOk result (λ step. (t : Tables) (c : Context) (w : Waiting) →
        step_ahead t c w step ≡ from_location c (goal_over w (goal.OfferInto channel choosing.entry)) (typed_spot_view spot)) }
    ensures spot { IfErr result (λ b. b.0 ≡ spot) }
    ensures goal { IfErr result (λ b. (w : Waiting) → goal_over w b.1 ≡ goal_over w (goal.OfferInto channel choosing.entry)) }
{
    match reserve(&mut choosing) {
        Ok(next) => Ok(keep_open(choosing, next, Offer::Receive(channel, Some(spot.spot)))),
        Err(_) => Err((spot, Goal::OfferInto(channel, choosing))),
    }
}
