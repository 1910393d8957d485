//! Variables: a part is led into, index by index and selector by selector, until it meets what waits for it.
ghost use Rattle.std.specs.Prelude.{◌≡◌, ℕ, true, false, []};
ghost use Rattle.pfc_tree.specs.trees.Exprs as trees;
ghost use Rattle.pfc_tree.specs.trees.Exprs.{more_exprs, no_selectors, more_selectors};
ghost use Rattle.pfc_tree.specs.views.Exprs.{expr_view, exprs_view, selector_view, selectors_view};
ghost use Rattle.pfc_program.specs.declared.tables.Tables.{Tables};
ghost use Rattle.pfc_semantics.specs.Remainders.{Context};
ghost use Rattle.pfc_semantics.specs.Alternatives.{context};
ghost use Rattle.pfc_semantics.specs.Expressions.{from_selectors, from_indices, from_args};
ghost use Rattle.pfc_semantics.specs.Rewriting.{from_location};
ghost use Rattle.pfc_phrases.specs.Views.{env_view};
ghost use Rattle.pfc_store.specs.Views.{typed_spot_view};
ghost use Rattle.pfc_pending.specs.Ahead.{ahead, step_ahead};
ghost use Rattle.pfc_pending.specs.Texts.{actuals_left};
ghost use Rattle.pfc_pending.specs.Waiting.{Waiting, callee_view, goal_over};
ghost use Rattle.pfc_pending.specs.declared.at_hand.At.TheVariants as at;
ghost use Rattle.pfc_pending.specs.declared.pending.Goal.TheVariants as goal;
ghost use Rattle.pfc_expression_steps.specs.Ahead.{reached_ahead, is_frequent, is_of_select, is_for_select};

use crate::passing::{give, reserve_argument};
use pfc_base::{Memory, Name, Place};
use pfc_pending::{Actuals, Argument, At, Callee, Deed, Goal, Offer, Passing, Pending, Step};
use pfc_sites::{Site, part};
use pfc_store::{TypedSpot, Value};
use pfc_tree::{Expr, Selector};
use pfc_types::Formal;
use std::alloc::Global;

/// What a variable comes to.
#[derive(Drop)]
pub enum Reached<'t> {
    Step(Step<'t>),
    /// No step: the variable and what waits for it, as they were.
    Back(Reason, TypedSpot, Goal<'t>),
}

/// Why a variable came to no step.
#[derive(Clone, Copy, Debug, PartialEq, Eq)]
pub enum Reason {
    /// What waits for it belongs to a select.
    Select,
    /// Memory was refused.
    Memory,
}

/// A variable's part, with the indices of a selector and the selectors that are left behind it: the next index, the next selector, or what
/// waits for it.
pub fn lead<'t>(
    spot: TypedSpot,
    es: &'t [Expr],
    ss: &'t [Selector],
    goal: Goal<'t>,
    site: Site<'t, '_>,
) -> Reached<'t>
    ensures next { (t : Tables) (line : ℕ) (w : Waiting) → let c = context (env_view site.entry.env) line in
        reached_ahead t c w (selectors_view ss.now) result ≡ ahead t c w (at.Part spot es.entry ss.entry goal.entry) }
    ensures select { is_for_select result ≡ true → is_of_select goal.entry ≡ true }
{
    match es {
        [e, behind @ ..] => Reached::Step(index(spot, e, behind, ss, goal)),
        [] => select(spot, ss, goal, site),
    }
}

/// An index is evaluated before the part that it leads into.
#[tactic(auto, using(crate::proofs::Rules::indices))]
fn index<'t>(
    spot: TypedSpot,
    e: &'t Expr,
    behind: &'t [Expr],
    ss: &'t [Selector],
    goal: Goal<'t>,
) -> Step<'t>
    ensures { (t : Tables) (c : Context) (w : Waiting) → step_ahead t c w result
        ≡ from_indices c (typed_spot_view spot) (more_exprs (expr_view e.now) (exprs_view behind.now)) (selectors_view ss.now) (goal_over w goal.entry)
        (λ last. from_selectors c last (selectors_view ss.now) (goal_over w goal.entry) (from_location c (goal_over w goal.entry))) }
{
    Step::Under(Pending::IndexInto(spot, behind, ss, goal), At::Expr(e))
}

/// The selectors behind a variable's part.
fn select<'t>(
    spot: TypedSpot,
    ss: &'t [Selector],
    goal: Goal<'t>,
    site: Site<'t, '_>,
) -> Reached<'t>
    ensures next { (t : Tables) (line : ℕ) (w : Waiting) → let c = context (env_view site.entry.env) line in
        reached_ahead t c w (selectors_view ss.now) result
        ≡ from_selectors c (typed_spot_view spot) (selectors_view ss.now) (goal_over w goal.entry) (from_location c (goal_over w goal.entry)) }
    ensures select { is_for_select result ≡ true → is_of_select goal.entry ≡ true }
{
    match ss {
        [] => reach(spot, goal, site),
        [first, behind @ ..] => enter(spot, first, behind, goal, site),
    }
}

/// A selector, with those behind it.
fn enter<'t>(
    spot: TypedSpot,
    first: &'t Selector,
    behind: &'t [Selector],
    goal: Goal<'t>,
    site: Site<'t, '_>,
) -> Reached<'t>
    ensures next { (t : Tables) (line : ℕ) (w : Waiting) → let c = context (env_view site.entry.env) line in
        let ss = more_selectors (selector_view first.now) (selectors_view behind.now) in
        reached_ahead t c w ss result ≡ from_selectors c (typed_spot_view spot) ss (goal_over w goal.entry) (from_location c (goal_over w goal.entry)) }
    ensures select { is_for_select result ≡ false }
{
    match first {
        Selector::Index(es, _place) => Reached::Step(Step::On(At::Part(spot, es, behind, goal))),
        Selector::Field(name, place) => field(spot, name, *place, behind, goal, site),
    }
}

/// On to a field.
fn field<'t>(
    spot: TypedSpot,
    name: &'t Name,
    _place: Place,
    behind: &'t [Selector],
    goal: Goal<'t>,
    site: Site<'t, '_>,
) -> Reached<'t>
    ensures next { (t : Tables) (line : ℕ) (w : Waiting) → let c = context (env_view site.entry.env) line in
        let ss = more_selectors (trees.field name.now _place) (selectors_view behind.now) in
        reached_ahead t c w ss result ≡ from_selectors c (typed_spot_view spot) ss (goal_over w goal.entry) (from_location c (goal_over w goal.entry)) }
    ensures select { is_for_select result ≡ false }
{
    let mut spot = spot;
    match spot.field(site.env.types, name) {
        Ok(()) => Reached::Step(Step::On(At::Part(spot, &[], behind, goal))),
        Err(Memory) => Reached::Back(Reason::Memory, spot, goal),
    }
}

/// A variable meets what waits for it.
#[inline(always)]
#[tactic(auto, using(crate::proofs::Rules::goals))]
pub fn reach<'t>(spot: TypedSpot, goal: Goal<'t>, site: Site<'t, '_>) -> Reached<'t>
    ensures next { (t : Tables) (line : ℕ) (w : Waiting) → let c = context (env_view site.entry.env) line in
        reached_ahead t c w no_selectors result ≡ from_location c (goal_over w goal.entry) (typed_spot_view spot) }
    ensures select { is_for_select result ≡ is_of_select goal.entry }
{
    match goal {
        Goal::Read => Reached::Step(Step::On(At::Deed(Deed::Reads(spot.spot)))),
        Goal::AssignTo(e) => Reached::Step(Step::Under(Pending::StoreAt(spot.spot), At::Expr(e))),
        Goal::Pass(p) => lend(spot, p),
        Goal::WaitAt => Reached::Step(Step::On(At::Deed(Deed::Waits(spot.spot)))),
        Goal::SignalAt => Reached::Step(Step::On(At::Deed(Deed::Signals(spot.spot)))),
        goal => reach_other(spot, goal, site),
    }
}

/// The same of what waits for it less often.
#[inline(never)]
#[tactic(auto, using(crate::proofs::Rules::goals))]
fn reach_other<'t>(spot: TypedSpot, goal: Goal<'t>, site: Site<'t, '_>) -> Reached<'t>
    requires { is_frequent goal ≡ false }
    ensures next { (t : Tables) (line : ℕ) (w : Waiting) → let c = context (env_view site.entry.env) line in
        reached_ahead t c w no_selectors result ≡ from_location c (goal_over w goal.entry) (typed_spot_view spot) }
    ensures select { is_for_select result ≡ is_of_select goal.entry }
{
    match goal {
        Goal::AskEmpty => Reached::Step(Step::On(At::Deed(Deed::AsksEmpty(spot.spot)))),
        Goal::InputTo(t) => Reached::Step(Step::On(At::Deed(Deed::Inputs(t, spot.spot)))),
        Goal::ActivateWith(formals, args) => call(
            formals,
            args,
            Callee::Process(spot.spot),
            site.alloc,
        ),
        Goal::EnterWith(entry, formals, args) => call(
            formals,
            args,
            Callee::Entry(spot.spot, entry),
            site.alloc,
        ),
        Goal::InitialTo(e) => Reached::Step(Step::Under(Pending::SetCount(spot.spot), At::Expr(e))),
        Goal::DelayAt(None) => Reached::Step(Step::On(At::Deed(Deed::Delays(spot.spot, 0)))),
        Goal::DelayAt(Some(rank)) => Reached::Step(Step::Under(
            Pending::DelayWith(spot.spot),
            At::Expr(rank),
        )),
        Goal::ResumeAt => Reached::Step(Step::On(At::Deed(Deed::Resumes(spot.spot)))),
        Goal::SendTo(None) => Reached::Step(Step::On(At::Deed(Deed::Meets(Offer::Send(
            spot.spot,
            Value::of(0),
        ))))),
        Goal::SendTo(Some(message)) => Reached::Step(Step::Under(
            Pending::SendOn(spot.spot),
            At::Expr(message),
        )),
        Goal::ReceiveFrom(None) => Reached::Step(Step::On(At::Deed(Deed::Meets(Offer::Receive(
            spot.spot, None,
        ))))),
        Goal::ReceiveFrom(Some(d)) => Reached::Step(Step::On(part(
            d,
            Goal::ReceiveInto(spot.spot),
            site,
        ))),
        Goal::ReceiveInto(channel) => Reached::Step(Step::On(At::Deed(Deed::Meets(Offer::Receive(
            channel,
            Some(spot.spot),
        ))))),
        Goal::OfferTo(e, choosing) => Reached::Back(
            Reason::Select,
            spot,
            Goal::OfferTo(e, choosing),
        ),
        Goal::OfferFrom(d, choosing) => Reached::Back(
            Reason::Select,
            spot,
            Goal::OfferFrom(d, choosing),
        ),
        Goal::OfferInto(channel, choosing) => Reached::Back(
            Reason::Select,
            spot,
            Goal::OfferInto(channel, choosing),
        ),
        Goal::Read | Goal::AssignTo(_) | Goal::Pass(_) | Goal::WaitAt | Goal::SignalAt => {
            unreachable!()
        }
    }
}

/// The arguments of a call, from the first on.
fn call<'t>(formals: &'t [Formal], rest: Actuals<'t>, callee: Callee, alloc: Global) -> Reached<'t>
    ensures next { (t : Tables) (c : Context) (w : Waiting) →
        reached_ahead t c w no_selectors result ≡ from_args c formals.now (actuals_left rest.entry) [] (callee_view w callee) }
    ensures select { is_for_select result ≡ false }
{
    Reached::Step(Step::On(At::Passing(Passing {
        formals,
        rest,
        given: Vec::new(alloc),
        callee,
    })))
}

/// An argument for a reference.
fn lend<'t>(spot: TypedSpot, p: Passing<'t>) -> Reached<'t>
    ensures next { (t : Tables) (c : Context) (w : Waiting) →
        reached_ahead t c w no_selectors result ≡ from_location c (goal_over w (goal.Pass p.entry)) (typed_spot_view spot) }
    ensures select { is_for_select result ≡ false }
{
    let mut p = p;
    match reserve_argument(&mut p.given) {
        Ok(()) => Reached::Step(Step::On(give(p, Argument::Reference(spot.spot)))),
        Err(Memory) => Reached::Back(Reason::Memory, spot, Goal::Pass(p)),
    }
}
