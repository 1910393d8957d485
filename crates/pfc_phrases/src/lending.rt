//! Arguments: how many there are, and whether they may be lent for a reference.
ghost use Rattle.std.specs.Prelude.{◌≡◌, option_map};
ghost use Rattle.pfc_tree.specs.views.Exprs.{expr_view, desig_view, selectors_view, actuals_view};
ghost use Rattle.pfc_types.specs.rules.Expressions as expressions;
ghost use Rattle.pfc_phrases.specs.Found.{refused};
ghost use Rattle.pfc_phrases.specs.Views.{env_view, callee_view};

use crate::{Callee, Env, as_desig, fault_unless, find_in};
use pfc_base::{Place, Refusal};
use pfc_tree::{Actual, Expr, Selector};
use pfc_types::{Found, Meaning};

/// Whether there are no selectors.
pub fn no_selector(ss: &[Selector]) -> bool
    ensures { result ≡ expressions.no_selector (selectors_view ss.now) }
{
    match ss {
        [] => true,
        [_first, _rest @ ..] => false,
    }
}

/// Whether there are no arguments.
pub fn no_actual(args: &[Actual]) -> bool
    ensures { result ≡ expressions.no_actual (actuals_view args.now) }
{
    match args {
        [] => true,
        [_first, _rest @ ..] => false,
    }
}

/// 316: as many arguments as formals; at the called name.
#[tactic(auto, using(crate::proofs::Counts::count_actuals))]
pub(crate) fn count_fault(callee: Callee, args: &[Actual], place: Place) -> Option<Refusal>
    ensures { refused result ≡ expressions.count_rule (callee_view callee.entry) (actuals_view args.now) place }
{
    fault_unless(
        !callee.known || callee.wants.len() == args.len(),
        place,
        316,
    )
}

/// Whether a name of this scope stands in the activation that ends.
fn in_scope(ending: Option<u32>, scope: Option<u32>) -> bool
    ensures { result ≡ expressions.in_scope ending scope }
{
    match (ending, scope) {
        (Some(i), Some(j)) => i == j,
        _ => false,
    }
}

/// Whether a name may be lent for a reference. It may be faulty or unknown, which is another rule's. A variable or a
/// value parameter of the activation that ends may not.
fn found_lends(ending: Option<u32>, found: Option<Found>) -> bool
    ensures { result ≡ expressions.found_lends ending found }
{
    let Some(found) = found else { return true };
    match found.meaning {
        Meaning::Variable { t: _, reference } => reference || !in_scope(ending, found.scope),
        Meaning::Faulty => true,
        Meaning::Constant { t: _, value: _ }
        | Meaning::Named(_)
        | Meaning::Sub(_)
        | Meaning::Module(_)
        | Meaning::Process(_)
        | Meaning::Entry(_)
        | Meaning::Predeclared(_) => false,
    }
}

/// Whether an expression is a variable that may be lent for a reference. A `requeue` ends the activation whose scope is
/// `ending`.
pub fn is_variable(e: &Expr, ending: Option<u32>, env: Env) -> bool
    ensures { result ≡ expressions.is_variable (env_view env.entry) ending (expr_view e.now) }
{
    match as_desig(e) {
        Some(d) => found_lends(ending, find_in(env, &d.name)),
        None => false,
    }
}
