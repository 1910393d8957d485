//! Communication over channels.
ghost use Rattle.std.specs.Prelude.{◌≡◌, Some};
ghost use Rattle.pfc_tree.specs.views.Exprs.{desig_view, expr_view};
ghost use Rattle.pfc_types.specs.Types.{form_of, carried_form};
ghost use Rattle.pfc_types.specs.rules.Expressions.{as_desig, desig_type};
ghost use Rattle.pfc_types.specs.rules.Statements as rules;
ghost use Rattle.pfc_phrases.specs.Found.{noted};
ghost use Rattle.pfc_phrases.specs.Views.{env_view};

use pfc_base::Place;
use pfc_phrases::{
    Best, Env, as_desig, desig, desig_place, expr, expr_place, find_in, has, is_any, may_agree,
    may_have, meaning_of, value_fault,
};
use pfc_tree::{Desig, Expr};
use pfc_types::{TypeForm, TypeId, TypeTable};

/// What a channel carries, None where the type is no channel.
fn carried(types: &TypeTable, t: TypeId) -> Option<TypeId>
    ensures { result ≡ carried_form (form_of types.now t) }
{
    match types.form(t) {
        Some(TypeForm::Channel(t)) => Some(*t),
        _ => None,
    }
}

/// What stands before `!` or `?`, with what it carries. 310: it is a channel; at its name.
fn channel(d: &Desig, env: Env, best: &mut Best) -> Option<TypeId>
    ensures t { result ≡ rules.carried_by env.entry.types.now (desig_type (env_view env.entry) (desig_view d.now)) }
    ensures best { best.new ≡ noted best.old (rules.broken_channel (env_view env.entry) (desig_view d.now)) }
{
    match desig(d, env, best) {
        Some(t) => {
            let carried = carried(env.types, t);
            best.unless(carried.is_some(), desig_place(d), 310);
            carried
        }
        None => None,
    }
}

/// Whether a designator is `any`, alone, as it is predeclared.
fn is_signal(d: &Desig, env: Env) -> bool
    ensures { result ≡ rules.names_any (env_view env.entry) (Some (desig_view d.now)) }
{
    match d.selectors.as_slice() {
        [] => is_any(meaning_of(find_in(env, &d.name))),
        [_first, _rest @ ..] => false,
    }
}

/// Whether a message is `any`.
fn sends_signal(e: &Expr, env: Env) -> bool
    ensures { result ≡ rules.names_any (env_view env.entry) (as_desig (expr_view e.now)) }
{
    match as_desig(e) {
        Some(d) => is_signal(d, env),
        None => false,
    }
}

/// A message over a channel that carries this type. 312: it has the type; at `!`. 406: no object is sent.
/// 412: `any`, and nothing else, is sent over a channel of `synchronous`.
fn message(e: &Expr, carried: Option<TypeId>, place: Place, env: Env, best: &mut Best)
    ensures { best.new ≡ noted best.old (rules.broken_message (env_view env.entry) carried (expr_view e.now) place) }
{
    if sends_signal(e, env) {
        best.unless(may_have(TypeId::SYNCHRONOUS, carried), expr_place(e), 412);
        return;
    }
    let t = expr(e, env, best);
    best.unless(may_agree(carried, t), place, 312);
    best.unless(!has(TypeId::SYNCHRONOUS, carried), place, 412);
    best.add(value_fault(env.types, t, expr_place(e)));
}

/// `c ! e`
pub(crate) fn send(d: &Desig, e: &Expr, place: Place, env: Env, best: &mut Best)
    ensures { best.new ≡ noted best.old (rules.broken_send (env_view env.entry) (desig_view d.now) (expr_view e.now) place) }
{
    let carried = channel(d, env, best);
    message(e, carried, place, env, best);
}

/// A variable that receives over a channel that carries this type, with the rules of a message; at `?`.
fn receiver(v: &Desig, carried: Option<TypeId>, place: Place, env: Env, best: &mut Best)
    ensures { best.new ≡ noted best.old (rules.broken_receiver (env_view env.entry) carried (desig_view v.now) place) }
{
    if is_signal(v, env) {
        best.unless(may_have(TypeId::SYNCHRONOUS, carried), desig_place(v), 412);
        return;
    }
    let t = desig(v, env, best);
    best.unless(may_agree(carried, t), place, 312);
    best.unless(!has(TypeId::SYNCHRONOUS, carried), place, 412);
    best.add(value_fault(env.types, t, desig_place(v)));
}

/// `c ? v`
pub(crate) fn receive(d: &Desig, v: &Desig, place: Place, env: Env, best: &mut Best)
    ensures { best.new ≡ noted best.old (rules.broken_receive (env_view env.entry) (desig_view d.now) (desig_view v.now) place) }
{
    let carried = channel(d, env, best);
    receiver(v, carried, place, env, best);
}
