//! Call statements: calls of procedures, activations of processes, and calls of entries.
ghost use Rattle.std.specs.Prelude.{◌≡◌};
ghost use Rattle.pfc_tree.specs.views.Exprs.{desig_view, selectors_view, actuals_view};
ghost use Rattle.pfc_types.specs.rules.Calls as calls;
ghost use Rattle.pfc_types.specs.rules.Routines as routines;
ghost use Rattle.pfc_phrases.specs.Found.{noted};
ghost use Rattle.pfc_phrases.specs.Views.{env_view, routine_view};

use crate::exprs::actuals;
use crate::items::{reads, writes};
use crate::lending::count_fault;
use crate::members::{
    activate, activate_variable, call_entry, call_module, call_selected, only_field,
};
use crate::routines::{Routine, delay_wants, routine_of};
use crate::{
    Best, Callee, Env, Site, Wants, asked, asked_formals, find_in, meaning_of, refuse, selectors,
    unasked,
};
use pfc_base::Place;
use pfc_tree::{Actual, Desig, Selector};
use pfc_types::{Formal, Meaning, SubSort};

/// Asks the rules of a call statement.
pub fn call(d: &Desig, args: &[Actual], env: Env, best: &mut Best)
    ensures { best.new ≡ noted best.old (calls.broken_call (env_view env.entry) (desig_view d.now) (actuals_view args.now)) }
{
    let m = meaning_of(find_in(env, &d.name));
    match d.selectors.as_slice() {
        [] => call_name(args, m, d.place, env, best),
        [_first, _rest @ ..] => call_part_of(&d.selectors, args, m, d.place, env, best),
    }
}

/// A call of a name without selectors.
fn call_name(args: &[Actual], m: Option<Meaning>, place: Place, env: Env, best: &mut Best)
    ensures { best.new ≡ noted best.old (calls.call_name (env_view env.entry) m place (actuals_view args.now)) }
{
    let Some(m) = m else {
        refuse(args, 301, place, env, best);
        return
    };
    match m {
        Meaning::Variable { t, reference: _ } => activate_variable(args, Some(t), place, env, best),
        Meaning::Sub(n) => call_sub(
            args,
            env.scopes.sub_sort(n),
            env.scopes.sub_formals(n),
            place,
            env,
            best,
        ),
        Meaning::Process(n) => activate(args, n, place, env, best),
        Meaning::Predeclared(k) => call_routine(args, routine_of(k), place, env, best),
        Meaning::Faulty => unasked(args, env, best),
        Meaning::Constant { t: _, value: _ }
        | Meaning::Named(_)
        | Meaning::Module(_)
        | Meaning::Entry(_) => { refuse(args, 310, place, env, best) }
    }
}

/// 310: a predeclared name that is called as a statement is a procedure.
fn call_routine(args: &[Actual], routine: Routine, place: Place, env: Env, best: &mut Best)
    ensures { best.new ≡ noted best.old (calls.call_routine (env_view env.entry) (routine_view routine.entry) place (actuals_view args.now)) }
{
    match routine {
        Routine::Signal | Routine::Function(_, _, _) => refuse(args, 310, place, env, best),
        Routine::Procedure(wants, site) => asked(args, Callee::new(wants, site), place, env, best),
        Routine::Delay => delayed(args, place, env, best),
        Routine::Reader(some) => reads(args, some, place, env, best),
        Routine::Writer(some) => writes(args, some, place, env, best),
    }
}

/// `delay (c, 1)`. 316: it takes one argument or two; at the name.
#[tactic(auto, using(crate::proofs::Counts::count_actuals))]
fn delayed(args: &[Actual], place: Place, env: Env, best: &mut Best)
    ensures { best.new ≡ noted best.old (calls.call_routine (env_view env.entry) routines.a_delay place (actuals_view args.now)) }
{
    let callee = Callee::new(delay_wants(args.len()), Site::InMonitorSub);
    asked(args, callee, place, env, best);
}

/// 310: a sub that is called as a statement is a procedure. 423: a guarded procedure is called by its name only inside its
/// resource, where only `requeue` names it; at the name.
fn call_sub(
    args: &[Actual],
    sort: SubSort,
    formals: &[Formal],
    place: Place,
    env: Env,
    best: &mut Best,
)
    ensures { best.new ≡ noted best.old (calls.call_sub (env_view env.entry) sort formals.now place (actuals_view args.now)) }
{
    match sort {
        SubSort::Procedure => asked_formals(args, formals, place, env, best),
        SubSort::Guarded => {
            asked_formals(args, formals, place, env, best);
            best.unless(false, place, 423);
        }
        SubSort::Function(_) => refuse(args, 310, place, env, best),
    }
}

/// 310: before `.` or `[` stands a variable; a module or a single process stands only before `.` and one name.
fn call_part_of(
    ss: &[Selector],
    args: &[Actual],
    m: Option<Meaning>,
    place: Place,
    env: Env,
    best: &mut Best,
)
    ensures { best.new ≡ noted best.old (calls.call_part_of (env_view env.entry) m (selectors_view ss.now) place (actuals_view args.now)) }
{
    let Some(m) = m else {
        best.unless(false, place, 301);
        selectors(ss, None, env, best);
        unasked(args, env, best);
        return
    };
    match m {
        Meaning::Variable { t, reference: _ } => call_selected(ss, args, t, place, env, best),
        Meaning::Module(n) => match only_field(ss) {
            Some(field) => call_module(args, n, field, env, best),
            None => unselected(ss, args, place, env, best),
        },
        Meaning::Process(n) => match only_field(ss) {
            Some(field) => call_entry(args, n, field, env, best),
            None => unselected(ss, args, place, env, best),
        },
        Meaning::Faulty => {
            selectors(ss, None, env, best);
            unasked(args, env, best);
        }
        Meaning::Constant { t: _, value: _ }
        | Meaning::Named(_)
        | Meaning::Sub(_)
        | Meaning::Entry(_)
        | Meaning::Predeclared(_) => unselected(ss, args, place, env, best),
    }
}

/// 310: a name that has selectors and should have none.
fn unselected(ss: &[Selector], args: &[Actual], place: Place, env: Env, best: &mut Best)
    ensures { best.new ≡ noted best.old (calls.unselected (env_view env.entry) (selectors_view ss.now) place (actuals_view args.now)) }
{
    best.unless(false, place, 310);
    selectors(ss, None, env, best);
    unasked(args, env, best);
}

/// Asks the rules of the name and the arguments of a `requeue`, which ends the activation whose scope is `ending`. 310: it names a
/// procedure, and 419: a guarded one; at the name.
pub fn requeue(
    args: &[Actual],
    ending: u32,
    m: Option<Meaning>,
    place: Place,
    env: Env,
    best: &mut Best,
)
    ensures { best.new ≡ noted best.old (calls.requeue_rules (env_view env.entry) ending m place (actuals_view args.now)) }
{
    let Some(m) = m else {
        refuse(args, 301, place, env, best);
        return
    };
    match m {
        Meaning::Sub(n) => requeue_sub(
            args,
            ending,
            env.scopes.sub_sort(n),
            env.scopes.sub_formals(n),
            place,
            env,
            best,
        ),
        Meaning::Faulty => unasked(args, env, best),
        _ => refuse(args, 310, place, env, best),
    }
}

/// 419: `requeue` names a guarded procedure. The arguments of a procedure are asked whether it is guarded or not.
fn requeue_sub(
    args: &[Actual],
    ending: u32,
    sort: SubSort,
    formals: &[Formal],
    place: Place,
    env: Env,
    best: &mut Best,
)
    ensures { best.new ≡ noted best.old (calls.requeue_sub (env_view env.entry) ending sort formals.now place (actuals_view args.now)) }
{
    match sort {
        SubSort::Procedure => {
            best.unless(false, place, 419);
            requeue_asked(args, ending, formals, place, env, best);
        }
        SubSort::Guarded => requeue_asked(args, ending, formals, place, env, best),
        SubSort::Function(_) => refuse(args, 310, place, env, best),
    }
}

/// The arguments of a `requeue`. A variable or a value parameter of the activation that ends is no variable for a reference.
fn requeue_asked(
    args: &[Actual],
    ending: u32,
    formals: &[Formal],
    place: Place,
    env: Env,
    best: &mut Best,
)
    ensures { best.new ≡ noted best.old (calls.requeue_asked (env_view env.entry) ending formals.now place (actuals_view args.now)) }
{
    let callee = Callee::new(Wants::Formals(formals), Site::Anywhere);
    best.add(count_fault(callee, args, place));
    actuals(args, true, Wants::Formals(formals), Some(ending), env, best);
}
