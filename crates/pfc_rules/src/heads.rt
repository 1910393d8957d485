//! The heads of statements: conditions, labels, the head of a `for`, and the words that stand only at some places.
ghost use Rattle.std.specs.Prelude.{◌≡◌};
ghost use Rattle.pfc_tree.specs.views.Exprs.{expr_view, actuals_view};
ghost use Rattle.pfc_types.specs.Faults.{◌⨾◌};
ghost use Rattle.pfc_types.specs.rules.Constants.{constant_type};
ghost use Rattle.pfc_types.specs.rules.Kinds.{condition_rule};
ghost use Rattle.pfc_types.specs.rules.Expressions.{expr_place, expr_type, broken_expr};
ghost use Rattle.pfc_types.specs.rules.Statements as rules;
ghost use Rattle.pfc_phrases.specs.Found.{noted, refused};
ghost use Rattle.pfc_phrases.specs.Views.{env_view};

use pfc_base::{Name, Place, Refusal};
use pfc_phrases::{
    Best, Env, NameKind, condition_fault, constant, constant_place, constant_value, expr,
    expr_place, fault_unless, find_in, is_simple, may_agree, may_be_simple, may_have, meaning_of,
    name_fault, requeue, variable_type,
};
use pfc_tree::{Actual, Constant, Expr};
use pfc_types::TypeId;

/// An expression that has to be a boolean.
pub(crate) fn condition(e: &Expr, env: Env, best: &mut Best)
    ensures { best.new ≡ noted best.old (broken_expr (env_view env.entry) (expr_view e.now) ⨾ condition_rule
        (expr_type (env_view env.entry) (expr_view e.now)) (expr_place (expr_view e.now))) }
{
    let t = expr(e, env, best);
    best.add(condition_fault(t, expr_place(e)));
}

/// The seconds of a `timeout`. 317: they are an integer; at the expression.
pub(crate) fn seconds(e: &Expr, env: Env, best: &mut Best)
    ensures { best.new ≡ noted best.old (rules.broken_timeout (env_view env.entry) (expr_view e.now)) }
{
    let t = expr(e, env, best);
    best.unless(may_have(TypeId::INTEGER, t), expr_place(e), 317);
}

/// A label of a `case` over values of type t. 319: it has that type, which is simple; at the label.
fn label(c: &Constant, t: Option<TypeId>, env: Env, best: &mut Best)
    ensures { best.new ≡ noted best.old (rules.broken_label (env_view env.entry) t c.now) }
{
    constant(c, env.scopes, env.view, best);
    if let Some(t) = t {
        let own = constant_type(c, env);
        best.unless(is_simple(t) && may_have(t, own), constant_place(c), 319);
    }
}

/// The type of a constant, None where it is faulty.
pub(crate) fn constant_type(c: &Constant, env: Env) -> Option<TypeId>
    ensures { result ≡ constant_type (rules.written_constant (env_view env.entry) c.now) }
{
    match constant_value(c, env.scopes, env.view) {
        Some(value) => Some(value.t),
        None => None,
    }
}

/// The labels of an arm.
pub(crate) fn labels(cs: &[Constant], t: Option<TypeId>, env: Env, best: &mut Best)
    ensures { best.new ≡ noted best.old (rules.broken_labels (env_view env.entry) t cs.now) }
{
    for c in cs {
        label(c, t, env, best);
    }
}

/// `for x := from to last`. 321: a simple variable that is named alone, and bounds of its type; at the variable.
pub(crate) fn for_head(x: &Name, from: &Expr, to: &Expr, place: Place, env: Env, best: &mut Best)
    ensures { best.new ≡ noted best.old (rules.broken_for (env_view env.entry) x.now (expr_view from.now) (expr_view to.now) place) }
{
    let m = meaning_of(find_in(env, x));
    best.add(name_fault(NameKind::Variable, m, place));
    let first = expr(from, env, best);
    let last = expr(to, env, best);
    best.add(for_fault(variable_type(m), first, last, place));
}

/// 321: a variable of type t runs from one value to another, whose types are given; at the variable. It is simple, and the values
/// have its type.
pub(crate) fn for_fault(
    t: Option<TypeId>,
    first: Option<TypeId>,
    last: Option<TypeId>,
    place: Place,
) -> Option<Refusal>
    ensures { refused result ≡ rules.for_rule t first last place }
{
    fault_unless(
        may_be_simple(t) && may_agree(t, first) && may_agree(t, last),
        place,
        321,
    )
}

/// 414: `accept` stands only in the body of a process, outside its subs; at `accept`. 301 and 310: it names an entry in
/// view; at the name.
pub(crate) fn accept_head(x: &Name, name: Place, place: Place, env: Env, best: &mut Best)
    ensures { best.new ≡ noted best.old (rules.accept_rules (env_view env.entry) x.now name place) }
{
    best.unless(env.around.process && !env.around.sub, place, 414);
    best.add(name_fault(NameKind::Entry, meaning_of(find_in(env, x)), name));
}

/// `requeue p (1)`. 418: it stands only in the body of a guarded procedure, outside its subs; at `requeue`.
pub(crate) fn requeued(x: &(Name, Place), args: &[Actual], place: Place, env: Env, best: &mut Best)
    ensures { best.new ≡ noted best.old (rules.broken_requeue (env_view env.entry) x.now (actuals_view args.now) place) }
{
    best.unless(env.around.guarded, place, 418);
    let m = meaning_of(find_in(env, &x.0));
    requeue(args, env.view.scope, m, x.1, env, best);
}
