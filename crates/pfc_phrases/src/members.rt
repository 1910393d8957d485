//! Calls of a name behind `.`: procedures of modules, entries of processes, and activations of a part of a variable.
ghost use Rattle.std.specs.Prelude.{◌≡◌, MatchOption, Some, None, option_map};
ghost use Rattle.pfc_tree.specs.views.Exprs.{selector_view, selectors_view, actuals_view};
ghost use Rattle.pfc_types.specs.Types as table;
ghost use Rattle.pfc_types.specs.Scopes as names;
ghost use Rattle.pfc_types.specs.rules.Calls as calls;
ghost use Rattle.pfc_phrases.specs.Fields as fields;
ghost use Rattle.pfc_phrases.specs.Found.{noted};
ghost use Rattle.pfc_phrases.specs.Views.{env_view};

use crate::operators::field_type;
use crate::{Best, Env, asked_formals, refuse, selectors, unasked};
use pfc_base::{Name, Place};
use pfc_tree::{Actual, Selector};
use pfc_types::{Meaning, Scopes, TypeForm, TypeId, TypeTable};

/// What a name of the scope with a number stands for, None exactly where the scope does not hold it.
pub fn member(scopes: &Scopes, scope: u32, name: &Name) -> Option<Meaning>
    ensures { result ≡ names.meaning_in (names.scope_at scopes.now.scopes scope) name.now }
{
    if scopes.len() <= scope {
        return None;
    }
    scopes.at(scope).find(name).copied()
}

/// The process of a process type.
pub fn process_of(types: &TypeTable, t: TypeId) -> Option<u32>
    ensures { result ≡ table.process_form (table.form_of types.now t) }
{
    match types.form(t)? {
        TypeForm::Process(n) => Some(*n),
        _ => None,
    }
}

/// 402: a process is activated between `cobegin` and `coend`; at the statement. Its arguments are counted at the same place.
pub(crate) fn activate(args: &[Actual], n: u32, place: Place, env: Env, best: &mut Best)
    ensures { best.new ≡ noted best.old (calls.activate (env_view env.entry) n place (actuals_view args.now)) }
{
    best.unless(env.around.cobegin, place, 402);
    asked_formals(args, env.scopes.process_formals(n), place, env, best);
}

/// 310: a variable that is called as a statement is a process.
pub(crate) fn activate_variable(
    args: &[Actual],
    t: Option<TypeId>,
    place: Place,
    env: Env,
    best: &mut Best,
)
    ensures { best.new ≡ noted best.old (calls.activate_variable (env_view env.entry) t place (actuals_view args.now)) }
{
    let Some(t) = t else {
        unasked(args, env, best);
        return
    };
    match process_of(env.types, t) {
        Some(n) => activate(args, n, place, env, best),
        None => refuse(args, 310, place, env, best),
    }
}

/// 413: a call of an entry names one of the called process; at the entry's name, where its arguments are counted too.
pub(crate) fn call_entry(args: &[Actual], n: u32, field: (&Name, Place), env: Env, best: &mut Best)
    ensures { best.new ≡ noted best.old (calls.call_entry (env_view env.entry) n (field.entry.0.now, field.entry.1) (actuals_view args.now)) }
{
    match member(env.scopes, env.scopes.process_scope(n), field.0) {
        Some(Meaning::Entry(k)) => asked_formals(
            args,
            env.scopes.entry_formals(n, k),
            field.1,
            env,
            best,
        ),
        Some(Meaning::Faulty) => unasked(args, env, best),
        _ => refuse(args, 413, field.1, env, best),
    }
}

/// 410: `m.p` names an exported procedure; at the name behind `.`. The arguments of a sub are asked whether it is exported or not.
pub(crate) fn call_module(args: &[Actual], n: u32, field: (&Name, Place), env: Env, best: &mut Best)
    ensures { best.new ≡ noted best.old (calls.call_module (env_view env.entry) n (field.entry.0.now, field.entry.1) (actuals_view args.now)) }
{
    match member(env.scopes, env.scopes.module(n).scope, field.0) {
        Some(Meaning::Sub(k)) => {
            best.unless(env.scopes.is_exported(k), field.1, 410);
            asked_formals(args, env.scopes.sub_formals(k), field.1, env, best);
        }
        Some(Meaning::Faulty) => unasked(args, env, best),
        _ => refuse(args, 410, field.1, env, best),
    }
}

/// `d.e` with a variable d of type t: an entry of the process d, or a process in the record d. 422: else the call names no
/// process; at the first token of d.
fn call_field(
    args: &[Actual],
    t: TypeId,
    field: (&Name, Place),
    place: Place,
    env: Env,
    best: &mut Best,
)
    ensures { best.new ≡ noted best.old (calls.call_part (env_view env.entry) (Some t) (field.entry.0.now, field.entry.1) place (actuals_view args.now)) }
{
    if let Some(n) = process_of(env.types, t) {
        call_entry(args, n, field, env, best);
        return;
    }
    let Some(part) = field_type(env.types, Some(t), field.0) else {
        refuse(args, 422, place, env, best);
        return
    };
    match process_of(env.types, part) {
        Some(n) => activate(args, n, place, env, best),
        None => refuse(args, 422, place, env, best),
    }
}

/// The name that a selector is.
fn field_of(s: &Selector) -> Option<(&Name, Place)>
    ensures { option_map (λ r. (r.0.now, r.1)) result ≡ fields.field_of (selector_view s.now) }
{
    match s {
        Selector::Field(name, place) => Some((name, *place)),
        Selector::Index(_, _) => None,
    }
}

/// The last selector, where it is a name behind `.`, with the selectors before it.
#[tactic(auto, using(crate::proofs::Fields::fields))]
pub fn split_field(ss: &[Selector]) -> Option<(&[Selector], (&Name, Place))>
    ensures { MatchOption result (calls.last_field (selectors_view ss.now) ≡ None) (λ r. (calls.last_field (selectors_view ss.now) ≡ Some (r.1.0.now, r.1.1)) ×
        (calls.before_last (selectors_view ss.now) ≡ selectors_view r.0.now)) }
{
    let (last, before) = ss.split_last()?;
    let field = field_of(last)?;
    Some((before, field))
}

/// A call of a variable of type t with selectors.
pub(crate) fn call_selected(
    ss: &[Selector],
    args: &[Actual],
    t: TypeId,
    place: Place,
    env: Env,
    best: &mut Best,
)
    ensures { best.new ≡ noted best.old (calls.call_selected (env_view env.entry) t (selectors_view ss.now)
        (calls.last_field (selectors_view ss.now)) place (actuals_view args.now)) }
{
    let Some((before, field)) = split_field(ss) else {
        let part = selectors(ss, Some(t), env, best);
        activate_variable(args, part, place, env, best);
        return
    };
    match selectors(before, Some(t), env, best) {
        Some(part) => call_field(args, part, field, place, env, best),
        None => unasked(args, env, best),
    }
}

/// The name behind `.`, where it is the only selector.
#[tactic(auto, using(crate::proofs::Fields::fields))]
pub fn only_field(ss: &[Selector]) -> Option<(&Name, Place)>
    ensures { option_map (λ r. (r.0.now, r.1)) result ≡ calls.only_field (selectors_view ss.now) }
{
    let [only, rest @ ..] = ss else { return None };
    match rest {
        [] => field_of(only),
        [_next, _more @ ..] => None,
    }
}
