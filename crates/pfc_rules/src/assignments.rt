//! Assignments: what may stand before `:=`, and the types on both sides.
ghost use Rattle.std.specs.Prelude.{◌≡◌};
ghost use Rattle.pfc_tree.specs.views.Exprs.{desig_view, expr_view};
ghost use Rattle.pfc_types.specs.Blocks.{sub_at};
ghost use Rattle.pfc_types.specs.Views.{levels};
ghost use Rattle.pfc_types.specs.rules.Statements as rules;
ghost use Rattle.pfc_phrases.specs.Found.{noted, refused};
ghost use Rattle.pfc_phrases.specs.Views.{env_view};

use pfc_base::{Place, Refusal};
use pfc_phrases::{
    Best, Env, NameKind, desig, desig_place, expr, expr_place, fault_unless, find_in, may_agree,
    meaning_of, name_fault, value_fault, variable_type,
};
use pfc_tree::{Desig, Expr};
use pfc_types::{Meaning, SubSort, TypeId, View};

/// Whether the scope with this number is among those around.
fn is_around(view: &View, scope: u32) -> bool
    ensures { result ≡ rules.is_around (levels view.now) scope }
{
    if view.scope == scope {
        return true;
    }
    match view.outer {
        Some(outer) => is_around(outer, scope),
        None => false,
    }
}

/// Whether the place stands in the body of a sub, its nested subs included.
fn is_inside(n: u32, env: Env) -> bool
    ensures { result ≡ rules.is_around (levels env.entry.view.now) (sub_at env.entry.scopes.now n).scope }
{
    is_around(env.view, env.scopes.sub_scope(n))
}

/// The type of the result that is assigned to a sub's name, None where that may not be.
fn result_type(n: u32, env: Env) -> Option<TypeId>
    ensures { result ≡ rules.assigned_sub (levels env.entry.view.now) (sub_at env.entry.scopes.now n) }
{
    let SubSort::Function(t) = env.scopes.sub_sort(n) else {
        return None
    };
    if is_inside(n, env) { t } else { None }
}

/// 310: a sub that is assigned is a function. 327: its name is assigned inside its body only. At the name.
fn result_fault(n: u32, place: Place, env: Env) -> Option<Refusal>
    ensures { refused result ≡ rules.sub_target (rules.is_around (levels env.entry.view.now) (sub_at env.entry.scopes.now n).scope)
        (sub_at env.entry.scopes.now n).sort place }
{
    let inside = is_inside(n, env);
    match env.scopes.sub_sort(n) {
        SubSort::Function(_) => fault_unless(inside, place, 327),
        SubSort::Procedure | SubSort::Guarded => fault_unless(false, place, 310),
    }
}

/// What is assigned by its name alone: a variable or the result of a function.
fn target_name(m: Option<Meaning>, place: Place, env: Env, best: &mut Best) -> Option<TypeId>
    ensures t { result ≡ rules.target_of (env_view env.entry) m }
    ensures best { best.new ≡ noted best.old (rules.target_rules (env_view env.entry) m place) }
{
    match m {
        Some(Meaning::Sub(n)) => {
            best.add(result_fault(n, place, env));
            result_type(n, env)
        }
        _ => {
            best.add(name_fault(NameKind::Variable, m, place));
            variable_type(m)
        }
    }
}

/// What is assigned, with its type.
fn target(d: &Desig, env: Env, best: &mut Best) -> Option<TypeId>
    ensures t { result ≡ rules.target_type (env_view env.entry) (desig_view d.now) }
    ensures best { best.new ≡ noted best.old (rules.broken_target (env_view env.entry) (desig_view d.now)) }
{
    match d.selectors.as_slice() {
        [] => target_name(meaning_of(find_in(env, &d.name)), d.place, env, best),
        [_first, _rest @ ..] => desig(d, env, best),
    }
}

/// `x := 1`. 312: both sides have one type; at `:=`. 406: no object is assigned, on either side.
pub(crate) fn assign(d: &Desig, e: &Expr, place: Place, env: Env, best: &mut Best)
    ensures { best.new ≡ noted best.old (rules.broken_assign (env_view env.entry) (desig_view d.now) (expr_view e.now) place) }
{
    let to = target(d, env, best);
    let from = expr(e, env, best);
    best.unless(may_agree(to, from), place, 312);
    best.add(value_fault(env.types, to, desig_place(d)));
    best.add(value_fault(env.types, from, expr_place(e)));
}
