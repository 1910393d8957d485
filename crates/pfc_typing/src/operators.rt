//! What operators, names and calls make of the types of their parts.
ghost use Rattle.std.specs.Prelude.{◌≡◌, ◌&&◌};
ghost use Rattle.pfc_tree.specs.views.Exprs.{actual_view};
ghost use Rattle.pfc_types.specs.Scopes as scopes;
ghost use Rattle.pfc_types.specs.Types as table;
ghost use Rattle.pfc_types.specs.rules.Constants as constants;
ghost use Rattle.pfc_types.specs.rules.Kinds as kinds;
ghost use Rattle.pfc_types.specs.rules.Routines as routines;
ghost use Rattle.pfc_types.specs.rules.Expressions as expressions;
ghost use Rattle.pfc_phrases.specs.Views.{env_view, want_view};

use pfc_base::Place;
use pfc_phrases::{
    Env, Want, agree, callee_of, fits_want, has, has_simple, is_char, is_variable, part_type,
    site_fits, use_type, where_so,
};
use pfc_tree::{Actual, Sign};
use pfc_types::{Found, TypeId};

/// The type of a literal: one of length 1 is a char.
pub fn literal_type(text: &[u8]) -> Option<TypeId>
    ensures { result ≡ kinds.where_so (constants.is_char text.now) table.char }
{
    where_so(is_char(text), TypeId::CHAR)
}

/// The type of `not f`, where f has the type t.
pub fn inverse_type(t: Option<TypeId>) -> Option<TypeId>
    ensures { result ≡ kinds.where_so (kinds.has table.boolean t) table.boolean }
{
    where_so(has(TypeId::BOOLEAN, t), TypeId::BOOLEAN)
}

/// The type of a sum whose first term has the type t, with its sign.
pub fn signed_type(sign: Option<(Sign, Place)>, t: Option<TypeId>) -> Option<TypeId>
    ensures { result ≡ expressions.signed_type sign t }
{
    match sign {
        None => t,
        Some(_) => where_so(has(TypeId::INTEGER, t), TypeId::INTEGER),
    }
}

/// The type that an operator gives, which takes operands of the type t.
pub fn operated_type(t: TypeId, a: Option<TypeId>, b: Option<TypeId>) -> Option<TypeId>
    ensures { result ≡ expressions.operated t a b }
{
    where_so(has(t, a) && has(t, b), t)
}

/// The type that a relation gives.
pub fn related_type(a: Option<TypeId>, b: Option<TypeId>) -> Option<TypeId>
    ensures { result ≡ expressions.related_type a b }
{
    where_so(has_simple(a) && agree(a, b), TypeId::BOOLEAN)
}

/// The type of a name that is a factor, which stands `alone` where it has no selectors and `bare` where it has no arguments.
/// What its selectors make of it, whether its arguments fit, and the type of the first of them are given.
pub fn name_type(
    found: Option<Found>,
    alone: bool,
    bare: bool,
    part: Option<TypeId>,
    fit: bool,
    first: Option<TypeId>,
    env: Env,
) -> Option<TypeId>
    ensures { result ≡ expressions.use_type (env_view env.entry) found alone bare part (fit && routines.site_fits env.entry.around
        (routines.called_function env.entry.scopes.now (scopes.meaning_of found)).site first) first }
{
    if alone {
        let callee = callee_of(found, true, env);
        let fits = fit && site_fits(env.around, callee.site, first);
        use_type(found, bare, part, fits, first, env)
    } else {
        part_type(found, bare, part, env)
    }
}

/// Whether an argument of the type t fits what is wanted.
pub fn argument_fits(a: &Actual, want: Want, t: Option<TypeId>, env: Env) -> bool
    requires { t ≡ expressions.arg_type (env_view env) (actual_view a.now) }
    ensures { result ≡ expressions.arg_fits (env_view env.entry) (want_view want) (actual_view a.now) }
{
    a.width.is_none() && fits_want(env.types, want, is_variable(&a.value, None, env), t)
}
