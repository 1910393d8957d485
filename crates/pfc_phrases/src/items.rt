//! The arguments of `read`, `readln`, `write` and `writeln`.
ghost use Rattle.std.specs.Prelude.{◌≡◌};
ghost use Rattle.pfc_tree.specs.views.Exprs.{expr_view, actual_view, actuals_view};
ghost use Rattle.pfc_types.specs.rules.Calls as calls;
ghost use Rattle.pfc_types.specs.rules.Expressions as expressions;
ghost use Rattle.pfc_types.specs.rules.Routines as routines;
ghost use Rattle.pfc_phrases.specs.Found.{noted};
ghost use Rattle.pfc_phrases.specs.Views.{env_view};

use crate::lending::{is_variable, no_actual};
use crate::{
    Best, Env, as_literal, expr, expr_place, is_same, may_be_simple, may_have, value_fault,
};
use pfc_base::Place;
use pfc_tree::{Actual, Expr};
use pfc_types::TypeId;

/// Asks the arguments of `read`, where `some` says that at least one is wanted (316, at the name), or of `readln`.
pub(crate) fn reads(args: &[Actual], some: bool, place: Place, env: Env, best: &mut Best)
    ensures { best.new ≡ noted best.old (calls.call_routine (env_view env.entry) (routines.a_reader some) place (actuals_view args.now)) }
{
    best.unless(!(some && no_actual(args)), place, 316);
    for a in args {
        read(a, env, best);
    }
}

/// What is read may be an integer or a char.
fn may_be_read(t: Option<TypeId>) -> bool
    ensures { result ≡ calls.may_be_read t }
{
    match t {
        Some(t) => is_same(t, TypeId::INTEGER) || is_same(t, TypeId::CHAR),
        None => true,
    }
}

/// 318: what is read is a variable, 326: an integer or a char, and 406: no object; at the argument. 324: it has no width; at
/// the width.
fn read(a: &Actual, env: Env, best: &mut Best)
    ensures { best.new ≡ noted best.old (calls.broken_read (env_view env.entry) (actual_view a.now)) }
{
    let place = expr_place(&a.value);
    let t = expr(&a.value, env, best);
    best.unless(is_variable(&a.value, None, env), place, 318);
    best.unless(may_be_read(t), place, 326);
    best.add(value_fault(env.types, t, place));
    if let Some(width) = &a.width {
        expr(width, env, best);
        best.unless(false, expr_place(width), 324);
    }
}

/// Asks the arguments of `write`, where `some` says that at least one is wanted (316, at the name), or of `writeln`.
pub(crate) fn writes(args: &[Actual], some: bool, place: Place, env: Env, best: &mut Best)
    ensures { best.new ≡ noted best.old (calls.call_routine (env_view env.entry) (routines.a_writer some) place (actuals_view args.now)) }
{
    best.unless(!(some && no_actual(args)), place, 316);
    for a in args {
        write(a, env, best);
    }
}

/// 324: a width is an integer; at the width.
fn write(a: &Actual, env: Env, best: &mut Best)
    ensures { best.new ≡ noted best.old (calls.broken_written (env_view env.entry) (actual_view a.now)) }
{
    written(&a.value, env, best);
    if let Some(width) = &a.width {
        let t = expr(width, env, best);
        best.unless(may_have(TypeId::INTEGER, t), expr_place(width), 324);
    }
}

/// 326: what is written is a simple value, or a literal that is the whole item, and 406: no object; at the argument.
fn written(e: &Expr, env: Env, best: &mut Best)
    ensures { best.new ≡ noted best.old (calls.written (env_view env.entry) (expressions.as_literal (expr_view e.now)) (expr_view e.now)) }
{
    if as_literal(e).is_some() {
        return;
    }
    let place = expr_place(e);
    let t = expr(e, env, best);
    best.unless(may_be_simple(t), place, 326);
    best.add(value_fault(env.types, t, place));
}
