//! Names that are factors.
ghost use Rattle.std.specs.Prelude.{◌≡◌, Bool, Option, true, false, if◌then◌else◌};
ghost use Rattle.pfc_types.specs.Scopes as scopes;
ghost use Rattle.pfc_types.specs.declared.types.TypeId.{TypeId};
ghost use Rattle.pfc_types.specs.rules.Routines as routines;
ghost use Rattle.pfc_types.specs.rules.Expressions as expressions;
ghost use Rattle.pfc_phrases.specs.Found.{noted};
ghost use Rattle.pfc_phrases.specs.Views.{env_view, callee_view};

use crate::routines::{
    called_function, guard_function, is_function_routine, is_function_sort, is_signal, routine_of,
    routine_value, sort_value,
};
use crate::{Best, Callee, Env, is_any, meaning_of, where_so};
use pfc_base::Place;
use pfc_types::{Found, Meaning, Scopes, TypeId};

/// 310: a name in an expression is a constant, a variable, a function, or `any` alone. With selectors, where it is not
/// `alone`, it is a variable, and with arguments, where it is not `bare`, a function.
fn fits_use(scopes: &Scopes, alone: bool, bare: bool, m: Meaning) -> bool
    ensures { result ≡ routines.fits_use scopes.now alone bare m }
{
    match m {
        Meaning::Constant { t: _, value: _ } => alone && bare,
        Meaning::Variable { t: _, reference: _ } => bare,
        Meaning::Sub(n) => alone && is_function_sort(scopes.sub_sort(n)),
        Meaning::Predeclared(k) => alone
            && (is_function_routine(routine_of(k)) || is_signal(routine_of(k)) && bare),
        Meaning::Faulty => true,
        Meaning::Named(_) | Meaning::Module(_) | Meaning::Process(_) | Meaning::Entry(_) => false,
    }
}

/// 420: a guard names the resource's variables, constants, some predeclared functions and nothing else. The resource's
/// scope is r, and the name's is given.
fn guard_names(r: u32, scope: Option<u32>, m: Meaning) -> bool
    ensures { result ≡ expressions.guard_names r scope m }
{
    match m {
        Meaning::Constant { t: _, value: _ } | Meaning::Faulty => true,
        Meaning::Variable { t: _, reference: _ } => match scope {
            Some(i) => i == r,
            None => false,
        },
        Meaning::Predeclared(k) => guard_function(k),
        Meaning::Named(_)
        | Meaning::Sub(_)
        | Meaning::Module(_)
        | Meaning::Process(_)
        | Meaning::Entry(_) => false,
    }
}

/// Whether a name may stand in the guard around, if there is one.
fn guard_allows(guard: Option<u32>, found: Option<Found>) -> bool
    ensures { result ≡ expressions.guard_allows guard found }
{
    match (guard, found) {
        (Some(r), Some(found)) => guard_names(r, found.scope, found.meaning),
        _ => true,
    }
}

/// 301, 310, 412 and 420, of a name that is a factor; at the name.
pub(crate) fn use_rules(
    found: Option<Found>,
    alone: bool,
    bare: bool,
    place: Place,
    env: Env,
    best: &mut Best,
)
    ensures { best.new ≡ noted best.old (expressions.use_rules (env_view env.entry) found alone bare place) }
{
    let Some(name) = found else {
        best.unless(false, place, 301);
        return
    };
    best.unless(fits_use(env.scopes, alone, bare, name.meaning), place, 310);
    best.unless(!(is_any(Some(name.meaning)) && (alone && bare)), place, 412);
    best.unless(guard_allows(env.around.guard, found), place, 420);
}

/// What a name that is a factor calls: nothing, where it has selectors.
pub fn callee_of<'a>(found: Option<Found>, alone: bool, env: Env<'a>) -> Callee<'a>
    ensures { callee_view result ≡ (if alone then routines.called_function env.entry.scopes.now (scopes.meaning_of found) else routines.nothing_called) }
{
    if alone {
        called_function(env.scopes, meaning_of(found))
    } else {
        Callee::NOTHING
    }
}

/// The type of a name without selectors. Whether its arguments fit, and the type of the first of them, are given; `part`
/// is the type of a variable.
fn plain_use(
    m: Meaning,
    bare: bool,
    part: Option<TypeId>,
    fit: bool,
    first: Option<TypeId>,
    env: Env,
) -> Option<TypeId>
    ensures { result ≡ expressions.plain_use (env_view env.entry) m true bare part fit first }
{
    match m {
        Meaning::Constant { t, value: _ } => where_so(bare, t),
        Meaning::Variable { t: _, reference: _ } if bare => part,
        Meaning::Sub(n) if fit => sort_value(env.scopes.sub_sort(n)),
        Meaning::Predeclared(k) if fit => routine_value(routine_of(k), first),
        _ => None,
    }
}

/// The type of a name without selectors that is a factor, None where the guard around does not allow it.
pub fn use_type(
    found: Option<Found>,
    bare: bool,
    part: Option<TypeId>,
    fit: bool,
    first: Option<TypeId>,
    env: Env,
) -> Option<TypeId>
    ensures { result ≡ expressions.use_type (env_view env.entry) found true bare part fit first }
{
    let name = found?;
    if guard_allows(env.around.guard, found) {
        plain_use(name.meaning, bare, part, fit, first, env)
    } else {
        None
    }
}

/// The type of a name with selectors that is a factor: the type that they make of a variable, where there are no arguments
/// and the guard around allows it.
pub fn part_type(found: Option<Found>, bare: bool, part: Option<TypeId>, env: Env) -> Option<TypeId>
    ensures { (fit : Bool) (first : Option TypeId) → result ≡ expressions.use_type (env_view env.entry) found false bare part fit first }
{
    let name = found?;
    if !guard_allows(env.around.guard, found) {
        return None;
    }
    match name.meaning {
        Meaning::Variable { t: _, reference: _ } if bare => part,
        _ => None,
    }
}
