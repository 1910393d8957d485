//! The walk over expressions: each phrase gets its type.
ghost use Rattle.std.specs.Prelude.{◌≡◌};
ghost use Rattle.pfc_tree.specs.views.Exprs.{expr_view, simple_view, term_view, factor_view, desig_view, summands_view, multipliers_view, selectors_view};
ghost use Rattle.pfc_tree.specs.views.Exprs.{exprs_view, actual_view, actuals_view};
ghost use Rattle.pfc_types.specs.Scopes as scopes;
ghost use Rattle.pfc_types.specs.rules.Routines as routines;
ghost use Rattle.pfc_types.specs.rules.Expressions as expressions;
ghost use Rattle.pfc_phrases.specs.Views.{env_view, wants_view};

use crate::{
    argument_fits, inverse_type, literal_type, name_type, operated_type, related_type, signed_type,
};
use pfc_base::Place;
use pfc_phrases::{
    Env, Wants, add_operand, callee_of, element, field_type, find_in, meaning_of, mul_operand,
    no_actual, no_selector, variable_type,
};
use pfc_tree::{Actual, AddOp, Desig, Expr, Factor, MulOp, Selector, Simple, Term};
use pfc_types::{Found, TypeId};

/// The type of an expression, None where it is faulty.
#[cycle(exprs)]
pub fn expr_type(e: &Expr, env: Env) -> Option<TypeId>
    ensures { result ≡ expressions.expr_type (env_view env.entry) (expr_view e.now) }
{
    let left = simple_type(&e.left, env);
    match &e.right {
        Some((_, right)) => related_type(left, simple_type(right, env)),
        None => left,
    }
}

#[cycle(exprs)]
#[tactic(auto, using(crate::proofs::Nodes::nodes))]
fn simple_type(s: &Simple, env: Env) -> Option<TypeId>
    ensures { result ≡ expressions.simple_type (env_view env.entry) (simple_view s.now) }
{
    let first = term_type(&s.first, env);
    summed(&s.rest, signed_type(s.sign, first), env)
}

/// The terms so far have the type t.
#[cycle(exprs)]
fn summed(us: &[((AddOp, Place), Term)], t: Option<TypeId>, env: Env) -> Option<TypeId>
    ensures { result ≡ expressions.summed (env_view env.entry) t (summands_view us.now) }
{
    let mut left = t;
    for (op, u) in us {
        left = operated_type(add_operand(op.0), left, term_type(u, env));
    }
    left
}

#[cycle(exprs)]
#[tactic(auto, using(crate::proofs::Nodes::nodes))]
fn term_type(t: &Term, env: Env) -> Option<TypeId>
    ensures { result ≡ expressions.term_type (env_view env.entry) (term_view t.now) }
{
    let first = factor_type(&t.first, env);
    multiplied(&t.rest, first, env)
}

/// The factors so far have the type t.
#[cycle(exprs)]
fn multiplied(ms: &[((MulOp, Place), Factor)], t: Option<TypeId>, env: Env) -> Option<TypeId>
    ensures { result ≡ expressions.multiplied (env_view env.entry) t (multipliers_view ms.now) }
{
    let mut left = t;
    for (op, f) in ms {
        left = operated_type(mul_operand(op.0), left, factor_type(f, env));
    }
    left
}

#[cycle(exprs)]
fn factor_type(f: &Factor, env: Env) -> Option<TypeId>
    ensures { result ≡ expressions.factor_type (env_view env.entry) (factor_view f.now) }
{
    match f {
        Factor::Number(_, _) => Some(TypeId::INTEGER),
        Factor::Literal(text, _) => literal_type(text.bytes()),
        Factor::Not(negated, _) => inverse_type(factor_type(negated, env)),
        Factor::Paren(e, _) => expr_type(e, env),
        Factor::Use(d, args, _) => {
            let found = find_in(env, &d.name);
            let (alone, bare) = (no_selector(&d.selectors), no_actual(args));
            let part = selected_type(&d.selectors, variable_type(meaning_of(found)), env);
            let (fit, first) = arguments(args, found, env);
            name_type(found, alone, bare, part, fit, first, env)
        }
    }
}

/// The type of a part of a variable of type t, None where a part is faulty.
#[cycle(exprs)]
pub fn selected_type(ss: &[Selector], t: Option<TypeId>, env: Env) -> Option<TypeId>
    ensures { result ≡ expressions.selected (env_view env.entry) t (selectors_view ss.now) }
{
    let mut part = t;
    for s in ss {
        part = match s {
            Selector::Index(es, _) => indexed(es, part, env),
            Selector::Field(name, _) => field_type(env.types, part, name),
        };
    }
    part
}

#[cycle(exprs)]
fn indexed(es: &[Expr], t: Option<TypeId>, env: Env) -> Option<TypeId>
    ensures { result ≡ expressions.indexed (env_view env.entry) t (exprs_view es.now) }
{
    let mut part = t;
    for e in es {
        part = element(env.types, part, expr_type(e, env));
    }
    part
}

/// Whether arguments fit what the name before them wants, which was found to be this, and the type of the first of them, None where
/// there is none or it is faulty.
#[cycle(exprs)]
pub fn arguments(args: &[Actual], found: Option<Found>, env: Env) -> (bool, Option<TypeId>)
    ensures fit { result.0 ≡ expressions.args_fit (env_view env.entry) (routines.called_function env.entry.scopes.now
        (scopes.meaning_of found)).wants (actuals_view args.now) }
    ensures first { result.1 ≡ expressions.first_type (env_view env.entry) (actuals_view args.now) }
{
    let mut fit = true;
    let mut first = None;
    let mut wants = callee_of(found, true, env).wants;
    for (i, a) in args.iter().enumerate() {
        let t = argument_type(a, env);
        if i == 0 {
            first = t;
        }
        match wants.split() {
            Some((want, rest)) => {
                let fits = argument_fits(a, want, t, env);
                fit = fit && fits;
                wants = rest;
            }
            None => fit = false,
        }
    }
    (fit && wants.len() == 0, first)
}

#[cycle(exprs)]
fn argument_type(a: &Actual, env: Env) -> Option<TypeId>
    ensures { result ≡ expressions.arg_type (env_view env.entry) (actual_view a.now) }
{
    expr_type(&a.value, env)
}

/// Whether arguments fit what is wanted, of which the first has the type t.
pub fn arguments_fit(args: &[Actual], t: Option<TypeId>, wants: Wants, env: Env) -> bool
    requires { t ≡ expressions.first_type (env_view env) (actuals_view args.now) }
    ensures { result ≡ expressions.args_fit (env_view env.entry) (wants_view wants.entry) (actuals_view args.now) }
{
    let [first, behind @ ..] = args else {
        return wants.len() == 0
    };
    let Some((want, rest)) = wants.split() else {
        return false
    };
    let fits = argument_fits(first, want, t, env);
    fits && fit_behind(behind, rest, env)
}

/// Whether arguments fit what is wanted.
fn fit_behind(args: &[Actual], wants: Wants, env: Env) -> bool
    ensures { result ≡ expressions.args_fit (env_view env.entry) (wants_view wants.entry) (actuals_view args.now) }
{
    let mut fit = true;
    let mut wants = wants;
    for a in args {
        match wants.split() {
            Some((want, rest)) => {
                let fits = argument_fits(a, want, argument_type(a, env), env);
                fit = fit && fits;
                wants = rest;
            }
            None => fit = false,
        }
    }
    fit && wants.len() == 0
}

/// The type of the first argument, None where there is none or it is faulty.
pub fn first_type(args: &[Actual], env: Env) -> Option<TypeId>
    ensures { result ≡ expressions.first_type (env_view env.entry) (actuals_view args.now) }
{
    match args {
        [first, ..] => expr_type(&first.value, env),
        [] => None,
    }
}

/// The type of a variable that stands alone, with its selectors, None where a part is faulty.
pub fn desig_type(d: &Desig, env: Env) -> Option<TypeId>
    ensures { result ≡ expressions.desig_type (env_view env.entry) (desig_view d.now) }
{
    selected_type(
        &d.selectors,
        variable_type(meaning_of(find_in(env, &d.name))),
        env,
    )
}
