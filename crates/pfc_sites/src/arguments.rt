//! Arguments of procedures, and parts of variables.
ghost use Rattle.std.specs.Prelude.{◌≡◌, ℕ, [], MatchOption, option_map};
ghost use Rattle.pfc_tree.specs.trees.Exprs.{no_actuals, more_actuals};
ghost use Rattle.pfc_tree.specs.views.Exprs.{expr_view, desig_view, actual_view, selectors_view, actuals_view};
ghost use Rattle.pfc_program.specs.declared.tables.Tables.{Tables};
ghost use Rattle.pfc_semantics.specs.Remainders.{Context};
ghost use Rattle.pfc_semantics.specs.Alternatives.{context};
ghost use Rattle.pfc_semantics.specs.Expressions.{from_args, from_desig, from_lent, from_reference, from_selectors};
ghost use Rattle.pfc_semantics.specs.Rewriting.{from_location};
ghost use Rattle.pfc_semantics.specs.Statements as statements;
ghost use Rattle.pfc_phrases.specs.Views.{env_view};
ghost use Rattle.pfc_store.specs.Views.{typed_spot_view};
ghost use Rattle.pfc_pending.specs.Ahead.{ahead, step_ahead};
ghost use Rattle.pfc_pending.specs.Texts.{actuals_left};
ghost use Rattle.pfc_pending.specs.Waiting.{Waiting, callee_view, goal_over};

use crate::Site;
use pfc_pending::{Actuals, At, Callee, Goal, Passing, Step};
use pfc_phrases::as_desig;
use pfc_store::{Spot, TypedSpot};
use pfc_tree::{Actual, Desig, Expr, Selector};
use pfc_types::Formal;
use std::alloc::Global;

/// All arguments of a list.
pub fn all<'t>(list: &'t Vec<Actual>) -> Actuals<'t>
    ensures { actuals_left result ≡ actuals_view list.now.items }
{
    Actuals { list, from: 0 }
}

/// The first of some arguments, with those behind it.
#[tactic(auto, using(crate::proofs::Left::actuals))]
pub fn first<'t>(args: Actuals<'t>) -> Option<(&'t Actual, Actuals<'t>)>
    ensures { MatchOption result (actuals_left args.entry ≡ no_actuals) (λ r. actuals_left args.entry ≡ more_actuals (actual_view r.0.now) (actuals_left r.1)) }
{
    if args.from < args.list.len() {
        let first = &args.list[args.from];
        let behind = Actuals {
            list: args.list,
            from: args.from + 1,
        };
        Some((first, behind))
    } else {
        None
    }
}

/// The second argument, where there is one.
pub fn second<'t>(args: &'t [Actual]) -> Option<&'t Expr>
    ensures { option_map (λ e. expr_view e.now) result ≡ statements.expr_of (statements.behind_first (actuals_view args.now)) }
{
    match args {
        [] => None,
        [_first] => None,
        [_first, second, _rest @ ..] => Some(expression(second)),
    }
}

/// The expression that an argument is.
pub fn expression<'t>(a: &'t Actual) -> &'t Expr
    ensures { expr_view result.now ≡ statements.item_of (actual_view a.now) }
{
    &a.value
}

/// The part of a variable that selectors lead to, for what waits for it.
pub fn selected<'t>(spot: TypedSpot, ss: &'t [Selector], goal: Goal<'t>) -> At<'t>
    ensures { (t : Tables) (c : Context) (w : Waiting) → ahead t c w result ≡ from_selectors c (typed_spot_view spot) (selectors_view ss.now)
        (goal_over w goal.entry) (from_location c (goal_over w goal.entry)) }
{
    At::Part(spot, &[], ss, goal)
}

/// A variable with its selectors, for what waits for it.
pub fn part<'t>(d: &'t Desig, goal: Goal<'t>, site: Site<'t, '_>) -> At<'t>
    ensures { (t : Tables) (line : ℕ) (w : Waiting) → ahead t (context (env_view site.entry.env) line) w result ≡ from_desig
        (context (env_view site.entry.env) line) (desig_view d.now) (goal_over w goal.entry)
        (from_location (context (env_view site.entry.env) line) (goal_over w goal.entry)) }
{
    selected(site.spot(&d.name), &d.selectors, goal)
}

/// What is no variable.
pub fn nowhere<'t>(goal: Goal<'t>, alloc: Global) -> At<'t>
    ensures { (t : Tables) (c : Context) (w : Waiting) → ahead t c w result ≡ from_reference c no_actuals (goal_over w goal.entry)
        (from_location c (goal_over w goal.entry)) }
{
    let spot = Spot {
        scope: 0,
        variable: 0,
        selectors: Vec::new(alloc),
    };
    At::Part(TypedSpot { spot, t: None }, &[], &[], goal)
}

/// The variable that an argument is.
fn lent<'t>(first: &'t Actual, goal: Goal<'t>, site: Site<'t, '_>) -> At<'t>
    ensures { (t : Tables) (line : ℕ) (w : Waiting) →
        ahead t (context (env_view site.entry.env) line) w result ≡ from_lent (context (env_view site.entry.env) line) (actual_view first.now)
        (goal_over w goal.entry) (from_location (context (env_view site.entry.env) line) (goal_over w goal.entry)) }
{
    match as_desig(expression(first)) {
        Some(d) => part(d, goal, site),
        None => nowhere(goal, site.alloc),
    }
}

/// The variable that the first argument of a predeclared procedure is.
pub fn reference<'t>(args: &'t [Actual], goal: Goal<'t>, site: Site<'t, '_>) -> At<'t>
    ensures { (t : Tables) (line : ℕ) (w : Waiting) → ahead t (context (env_view site.entry.env) line) w result ≡ from_reference
        (context (env_view site.entry.env) line) (actuals_view args.now) (goal_over w goal.entry)
        (from_location (context (env_view site.entry.env) line) (goal_over w goal.entry)) }
{
    match args {
        [] => nowhere(goal, site.alloc),
        [first, _rest @ ..] => lent(first, goal, site),
    }
}

/// The arguments of a call, from the first on.
pub fn passing<'t>(
    formals: &'t [Formal],
    args: &'t Vec<Actual>,
    callee: Callee,
    alloc: Global,
) -> Step<'t>
    ensures { (t : Tables) (c : Context) (w : Waiting) →
        step_ahead t c w result ≡ from_args c formals.now (actuals_view args.now.items) [] (callee_view w callee) }
{
    Step::On(At::Passing(Passing {
        formals,
        rest: all(args),
        given: Vec::new(alloc),
        callee,
    }))
}
