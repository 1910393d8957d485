//! The arguments of calls, passed one behind the other.
ghost use Rattle.std.specs.Prelude.{◌≡◌, ℕ, ◌∷◌, ◌++◌, [], OnOk};
ghost use Rattle.pfc_tree.specs.trees.Exprs.{more_actuals};
ghost use Rattle.pfc_tree.specs.views.Exprs.{actual_view};
ghost use Rattle.pfc_program.specs.declared.tables.Tables.{Tables};
ghost use Rattle.pfc_semantics.specs.Remainders.{Context};
ghost use Rattle.pfc_semantics.specs.Alternatives.{context};
ghost use Rattle.pfc_semantics.specs.Expressions.{from_args, from_lent};
ghost use Rattle.pfc_semantics.specs.Rewriting.{from_location};
ghost use Rattle.pfc_phrases.specs.Views.{env_view};
ghost use Rattle.pfc_pending.specs.Ahead.{ahead, step_ahead};
ghost use Rattle.pfc_pending.specs.Texts.{actuals_left};
ghost use Rattle.pfc_pending.specs.Waiting.{Waiting, argument_view, given_view, callee_view, goal_over};
ghost use Rattle.pfc_pending.specs.declared.at_hand.At.TheVariants as at;
ghost use Rattle.pfc_expression_steps.specs.Ahead.{HasRoomForOne};

use pfc_base::Memory;
use pfc_pending::{Argument, At, Deed, Goal, Passing, Pending, Step};
use pfc_phrases::as_desig;
use pfc_sites::{Site, expression, first, nowhere, part};
use pfc_tree::Actual;
use pfc_types::Formal;

/// The arguments that are left of a call: the first of them, or the call where none or no parameter is left.
pub fn pass<'t>(p: Passing<'t>, site: Site<'t, '_>) -> Step<'t>
    ensures { (t : Tables) (line : ℕ) (w : Waiting) → let c =
        context (env_view site.entry.env) line in step_ahead t c w result ≡ ahead t c w (at.Passing p.entry) }
{
    let Some((actual, rest)) = first(p.rest) else {
        return Step::On(At::Deed(Deed::Calls(p.callee, p.given)))
    };
    match p.formals {
        [] => Step::On(At::Deed(Deed::Calls(p.callee, p.given))),
        [formal, formals @ ..] => {
            let behind = Passing {
                formals,
                rest,
                given: p.given,
                callee: p.callee,
            };
            pass_first(*formal, actual, behind, site)
        }
    }
}

/// An argument for its parameter, with what is passed behind it.
#[tactic(auto, using(crate::proofs::Rules::passing))]
fn pass_first<'t>(
    formal: Formal,
    actual: &'t Actual,
    behind: Passing<'t>,
    site: Site<'t, '_>,
) -> Step<'t>
    ensures { (t : Tables) (line : ℕ) (w : Waiting) → let c = context (env_view site.entry.env) line in
        step_ahead t c w result ≡ from_args c (formal ∷ behind.entry.formals.now) (more_actuals (actual_view actual.now) (actuals_left behind.entry.rest))
        (given_view behind.entry.given.items) (callee_view w behind.entry.callee) }
{
    if formal.reference {
        Step::On(lent(actual, Goal::Pass(behind), site))
    } else {
        Step::Under(Pending::PassValue(behind), At::Expr(expression(actual)))
    }
}

/// The variable that an argument for a reference is.
fn lent<'t>(actual: &'t Actual, goal: Goal<'t>, site: Site<'t, '_>) -> At<'t>
    ensures { (t : Tables) (line : ℕ) (w : Waiting) → let c = context (env_view site.entry.env) line in
        ahead t c w result ≡ from_lent c (actual_view actual.now) (goal_over w goal.entry) (from_location c (goal_over w goal.entry)) }
{
    match as_desig(expression(actual)) {
        Some(d) => part(d, goal, site),
        None => nowhere(goal, site.alloc),
    }
}

/// Takes room for one argument more. Its only refusal is want of memory; the arguments are the same in any case.
pub(crate) fn reserve_argument(given: &mut Vec<Argument>) -> Result<(), Memory>
    ensures same { given.new.items ≡ given.old.items }
    ensures room { OnOk result (HasRoomForOne given.new) }
{
    given.reserve(1)?;
    Ok(())
}

/// One argument more behind those that are given, in room that was taken before. It takes no memory.
pub(crate) fn give<'t>(p: Passing<'t>, argument: Argument) -> At<'t>
    requires { HasRoomForOne p.given }
    ensures { (t : Tables) (c : Context) (w : Waiting) → ahead t c w result ≡ from_args c p.entry.formals.now (actuals_left p.entry.rest)
        (given_view p.entry.given.items ++ argument_view argument ∷ []) (callee_view w p.entry.callee) }
{
    let Passing {
        formals,
        rest,
        mut given,
        callee,
    } = p;
    given.push(argument).unwrap();
    At::Passing(Passing {
        formals,
        rest,
        given,
        callee,
    })
}
