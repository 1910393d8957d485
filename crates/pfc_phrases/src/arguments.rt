//! The arguments of what is called.
ghost use Rattle.std.specs.Prelude.{◌≡◌, false};
ghost use Rattle.pfc_types.specs.Faults.{◌⨾◌, unless};
ghost use Rattle.pfc_tree.specs.views.Exprs.{actuals_view};
ghost use Rattle.pfc_types.specs.rules.Calls as calls;
ghost use Rattle.pfc_phrases.specs.Found.{noted};
ghost use Rattle.pfc_phrases.specs.Views.{env_view, callee_view};

use crate::exprs::actuals;
use crate::lending::count_fault;
use crate::routines::site_fault;
use crate::{Best, Callee, Env, Site, Wants};
use pfc_base::Place;
use pfc_tree::Actual;
use pfc_types::Formal;

/// Asks arguments of which nothing is wanted for their own rules.
pub fn unasked(args: &[Actual], env: Env, best: &mut Best)
    ensures { best.new ≡ noted best.old (calls.unasked (env_view env.entry) (actuals_view args.now)) }
{
    actuals(args, false, Wants::Formals(&[]), None, env, best);
}

/// A rule is broken at a place, and the arguments are asked for their own rules.
pub(crate) fn refuse(args: &[Actual], code: u16, place: Place, env: Env, best: &mut Best)
    ensures { best.new ≡ noted best.old (unless false place code ⨾ calls.unasked (env_view env.entry) (actuals_view args.now)) }
{
    best.unless(false, place, code);
    unasked(args, env, best);
}

/// Asks the arguments of what is called, whose name stands at this place.
pub fn asked(args: &[Actual], callee: Callee, place: Place, env: Env, best: &mut Best)
    ensures { best.new ≡ noted best.old (calls.asked (env_view env.entry) (callee_view callee.entry) place (actuals_view args.now)) }
{
    best.add(count_fault(callee, args, place));
    let (_, first) = actuals(args, callee.known, callee.wants, None, env, best);
    best.add(site_fault(env.around, callee.site, first, place));
}

/// Asks the arguments for these parameters.
pub fn asked_formals(args: &[Actual], formals: &[Formal], place: Place, env: Env, best: &mut Best)
    ensures { best.new ≡ noted best.old (calls.asked_formals (env_view env.entry) formals.now place (actuals_view args.now)) }
{
    asked(
        args,
        Callee::new(Wants::Formals(formals), Site::Anywhere),
        place,
        env,
        best,
    );
}
