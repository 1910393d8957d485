//! The walk over expressions: each phrase gets its type, and its broken rules are found in the order of its parts.
ghost use Rattle.std.specs.Prelude.{◌≡◌};
ghost use Rattle.pfc_tree.specs.views.Exprs.{expr_view, simple_view, term_view, factor_view, desig_view, summands_view, multipliers_view, selectors_view};
ghost use Rattle.pfc_tree.specs.views.Exprs.{exprs_view, actual_view, actuals_view};
ghost use Rattle.pfc_types.specs.rules.Expressions as expressions;
ghost use Rattle.pfc_phrases.specs.Found.{noted};
ghost use Rattle.pfc_phrases.specs.Views.{env_view, want_view, wants_view};

use crate::lending::{count_fault, is_variable, no_actual, no_selector};
use crate::operators::{
    add_operand, element, field, index_fault, mul_operand, operated, related, signed,
};
use crate::places::simple_place;
use crate::routines::{fits_want, site_fault, site_fits, want_rules};
use crate::uses::{callee_of, part_type, use_rules, use_type};
use crate::{
    Best, Callee, Env, NameKind, Want, Wants, as_desig, expr_place, find_in, has, is_char,
    may_have, meaning_of, name_fault, variable_type, where_so,
};
use pfc_base::Place;
use pfc_tree::{Actual, AddOp, Desig, Expr, Factor, MulOp, Selector, Simple, Term};
use pfc_types::TypeId;

/// The type of an expression, None where it is faulty; asks its rules.
#[cycle(exprs)]
pub fn expr(e: &Expr, env: Env, best: &mut Best) -> Option<TypeId>
    ensures t { result ≡ expressions.expr_type (env_view env.entry) (expr_view e.now) }
    ensures best { best.new ≡ noted best.old (expressions.broken_expr (env_view env.entry) (expr_view e.now)) }
{
    let left = simple(&e.left, env, best);
    let Some((op, right)) = &e.right else {
        return left
    };
    let (a, b) = (simple_place(&e.left), simple_place(right));
    let right = simple(right, env, best);
    related(env.types, (left, a), (right, b), op.1, best)
}

#[cycle(exprs)]
#[tactic(auto, using(crate::proofs::Nodes::nodes))]
fn simple(s: &Simple, env: Env, best: &mut Best) -> Option<TypeId>
    ensures t { result ≡ expressions.simple_type (env_view env.entry) (simple_view s.now) }
    ensures best { best.new ≡ noted best.old (expressions.broken_simple (env_view env.entry) (simple_view s.now)) }
{
    let first = term(&s.first, env, best);
    let t = signed(s.sign, first, best);
    summands(&s.rest, t, env, best)
}

/// The terms so far have the type t.
#[cycle(exprs)]
fn summands(
    us: &[((AddOp, Place), Term)],
    t: Option<TypeId>,
    env: Env,
    best: &mut Best,
) -> Option<TypeId>
    ensures t { result ≡ expressions.summed (env_view env.entry) t (summands_view us.now) }
    ensures best { best.new ≡ noted best.old (expressions.broken_summands (env_view env.entry) t (summands_view us.now)) }
{
    let mut left = t;
    for (op, u) in us {
        let right = term(u, env, best);
        left = operated(add_operand(op.0), left, right, op.1, best);
    }
    left
}

#[cycle(exprs)]
#[tactic(auto, using(crate::proofs::Nodes::nodes))]
fn term(t: &Term, env: Env, best: &mut Best) -> Option<TypeId>
    ensures t { result ≡ expressions.term_type (env_view env.entry) (term_view t.now) }
    ensures best { best.new ≡ noted best.old (expressions.broken_term (env_view env.entry) (term_view t.now)) }
{
    let first = factor(&t.first, env, best);
    multipliers(&t.rest, first, env, best)
}

/// The factors so far have the type t.
#[cycle(exprs)]
fn multipliers(
    ms: &[((MulOp, Place), Factor)],
    t: Option<TypeId>,
    env: Env,
    best: &mut Best,
) -> Option<TypeId>
    ensures t { result ≡ expressions.multiplied (env_view env.entry) t (multipliers_view ms.now) }
    ensures best { best.new ≡ noted best.old (expressions.broken_multipliers (env_view env.entry) t (multipliers_view ms.now)) }
{
    let mut left = t;
    for (op, f) in ms {
        let right = factor(f, env, best);
        left = operated(mul_operand(op.0), left, right, op.1, best);
    }
    left
}

#[cycle(exprs)]
fn factor(f: &Factor, env: Env, best: &mut Best) -> Option<TypeId>
    ensures t { result ≡ expressions.factor_type (env_view env.entry) (factor_view f.now) }
    ensures best { best.new ≡ noted best.old (expressions.broken_factor (env_view env.entry) (factor_view f.now)) }
{
    match f {
        Factor::Number(_, _) => Some(TypeId::INTEGER),
        Factor::Literal(text, place) => {
            let single = is_char(text.bytes());
            best.unless(single, *place, 325);
            where_so(single, TypeId::CHAR)
        }
        Factor::Not(negated, place) => {
            let t = factor(negated, env, best);
            best.unless(may_have(TypeId::BOOLEAN, t), *place, 311);
            where_so(has(TypeId::BOOLEAN, t), TypeId::BOOLEAN)
        }
        Factor::Paren(e, _) => expr(e, env, best),
        Factor::Use(d, args, _) => {
            let found = find_in(env, &d.name);
            let (alone, bare) = (no_selector(&d.selectors), no_actual(args));
            use_rules(found, alone, bare, d.place, env, best);
            let part = selectors(&d.selectors, variable_type(meaning_of(found)), env, best);
            let callee = callee_of(found, alone, env);
            best.add(count_fault(callee, args, d.place));
            let (fit, first) = actuals(args, callee.known, callee.wants, None, env, best);
            best.add(site_fault(env.around, callee.site, first, d.place));
            if alone {
                use_type(
                    found,
                    bare,
                    part,
                    fit && site_fits(env.around, callee.site, first),
                    first,
                    env,
                )
            } else {
                part_type(found, bare, part, env)
            }
        }
    }
}

/// The type of a variable with its selectors, None where a part is faulty; asks the rules of the selectors. The variable
/// has the type t.
#[cycle(exprs)]
pub fn selectors(ss: &[Selector], t: Option<TypeId>, env: Env, best: &mut Best) -> Option<TypeId>
    ensures t { result ≡ expressions.selected (env_view env.entry) t (selectors_view ss.now) }
    ensures best { best.new ≡ noted best.old (expressions.broken_selectors (env_view env.entry) t (selectors_view ss.now)) }
{
    let mut part = t;
    for s in ss {
        part = match s {
            Selector::Index(es, place) => indexes(es, part, *place, env, best),
            Selector::Field(name, place) => field(env.types, part, name, *place, best),
        };
    }
    part
}

#[cycle(exprs)]
fn indexes(
    es: &[Expr],
    t: Option<TypeId>,
    place: Place,
    env: Env,
    best: &mut Best,
) -> Option<TypeId>
    ensures t { result ≡ expressions.indexed (env_view env.entry) t (exprs_view es.now) }
    ensures best { best.new ≡ noted best.old (expressions.broken_indexes (env_view env.entry) t (exprs_view es.now) place) }
{
    let mut part = t;
    for e in es {
        let index = expr(e, env, best);
        best.add(index_fault(env.types, part, index, place));
        part = element(env.types, part, index);
    }
    part
}

/// Asks the rules of arguments; gives whether they fit what is wanted, and the type of the first of them. A `requeue` ends the
/// activation whose scope is `ending`.
#[cycle(exprs)]
pub(crate) fn actuals(
    args: &[Actual],
    known: bool,
    wants: Wants,
    ending: Option<u32>,
    env: Env,
    best: &mut Best,
) -> (bool, Option<TypeId>)
    ensures fit { result.0 ≡ expressions.args_fit (env_view env.entry) (wants_view wants.entry) (actuals_view args.now) }
    ensures first { result.1 ≡ expressions.first_type (env_view env.entry) (actuals_view args.now) }
    ensures best { best.new ≡ noted best.old (expressions.broken_actuals (env_view env.entry) ending known (wants_view wants.entry) (actuals_view args.now)) }
{
    let mut fit = true;
    let mut first = None;
    let mut wants = wants;
    for (i, a) in args.iter().enumerate() {
        let t = actual(a, known, env, best);
        if i == 0 {
            first = t;
        }
        match wants.split() {
            Some((want, rest)) => {
                let fits = wanted(a, want, t, ending, env, best);
                fit = fit && fits;
                wants = rest;
            }
            None => fit = false,
        }
    }
    (fit && wants.len() == 0, first)
}

#[cycle(exprs)]
fn actual(a: &Actual, known: bool, env: Env, best: &mut Best) -> Option<TypeId>
    ensures t { result ≡ expressions.arg_type (env_view env.entry) (actual_view a.now) }
    ensures best { best.new ≡ noted best.old (expressions.broken_actual (env_view env.entry) known (actual_view a.now)) }
{
    let t = expr(&a.value, env, best);
    if let Some(width) = &a.width {
        expr(width, env, best);
        best.unless(!known, expr_place(width), 324);
    }
    t
}

/// Asks the rules between an argument of type t and what is wanted; gives whether it fits.
fn wanted(
    a: &Actual,
    want: Want,
    t: Option<TypeId>,
    ending: Option<u32>,
    env: Env,
    best: &mut Best,
) -> bool
    requires { t ≡ expressions.arg_type (env_view env) (actual_view a.now) }
    ensures fit { result ≡ expressions.arg_fits (env_view env.entry) (want_view want) (actual_view a.now) }
    ensures best { best.new ≡ noted best.old (expressions.broken_wanted (env_view env.entry) ending (want_view want) (actual_view a.now)) }
{
    let place = expr_place(&a.value);
    want_rules(
        env.types,
        want,
        is_variable(&a.value, ending, env),
        t,
        place,
        best,
    );
    a.width.is_none() && fits_want(env.types, want, is_variable(&a.value, None, env), t)
}

/// The type of a variable that stands alone, with its selectors; asks its rules.
pub fn desig(d: &Desig, env: Env, best: &mut Best) -> Option<TypeId>
    ensures t { result ≡ expressions.desig_type (env_view env.entry) (desig_view d.now) }
    ensures best { best.new ≡ noted best.old (expressions.broken_desig (env_view env.entry) (desig_view d.now)) }
{
    let m = meaning_of(find_in(env, &d.name));
    best.add(name_fault(NameKind::Variable, m, d.place));
    selectors(&d.selectors, variable_type(m), env, best)
}
