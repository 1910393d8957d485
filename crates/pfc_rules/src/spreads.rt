//! Alternatives with a spread, which stand once for each value of a variable.
ghost use Rattle.std.specs.Prelude.{◌≡◌, option_map, nat_le};
ghost use Rattle.pfc_tree.specs.views.Stmts.{alts_view};
ghost use Rattle.pfc_types.specs.rules.Statements as rules;
ghost use Rattle.pfc_phrases.specs.Found.{noted, refused};
ghost use Rattle.pfc_phrases.specs.Views.{env_view, ordinal_view};

use crate::heads::{constant_type, for_fault};
use pfc_base::{Place, Refusal};
use pfc_phrases::{
    Best, Env, NameKind, Ordinal, are_bounds, constant, constant_value, fault_unless, find_in,
    meaning_of, name_fault, variable_type,
};
use pfc_tree::{Alt, Spread};
use pfc_types::value_count;

/// The most alternatives of one `select`, one with a spread counted once for each value.
const MOST_ALTERNATIVES: u64 = 1_024;

/// `for x := 1 to 3 replicate`. 321: a simple variable that is named alone, and constants of its type; at the variable.
pub(crate) fn spread_head(spread: &Option<Spread>, env: Env, best: &mut Best)
    ensures { best.new ≡ noted best.old (rules.broken_spread (env_view env.entry) spread.now) }
{
    let Some(s) = spread else { return };
    let m = meaning_of(find_in(env, &s.name));
    best.add(name_fault(NameKind::Variable, m, s.place));
    constant(&s.low, env.scopes, env.view, best);
    constant(&s.high, env.scopes, env.view, best);
    let first = constant_type(&s.low, env);
    let last = constant_type(&s.high, env);
    best.add(for_fault(variable_type(m), first, last, s.place));
}

/// How many values lie from a low constant to a high one of its type. There is none where the low one is above the high
/// one, and none is counted where a constant is faulty or the types differ.
fn values_between(low: Option<Ordinal>, high: Option<Ordinal>) -> u64
    ensures { result ≡ rules.values_between (option_map ordinal_view low) (option_map ordinal_view high) }
{
    let (Some(low), Some(high)) = (low, high) else {
        return 0
    };
    if are_bounds(low, high) {
        value_count(low.value, high.value)
    } else {
        0
    }
}

/// How many alternatives one stands for.
fn spread_count(spread: &Option<Spread>, env: Env) -> u64
    ensures { result ≡ rules.spread_count (env_view env.entry) spread.now }
{
    match spread {
        None => 1,
        Some(s) => values_between(
            constant_value(&s.low, env.scopes, env.view),
            constant_value(&s.high, env.scopes, env.view),
        ),
    }
}

/// Whether a `select` has at most 1,024 alternatives.
fn are_few(alts: &[Alt], env: Env) -> bool
    ensures { result ≡ nat_le (rules.alts_count (env_view env.entry) (alts_view alts.now)) 1024 }
{
    let mut room = MOST_ALTERNATIVES;
    for a in alts {
        let count = spread_count(&a.spread, env);
        if count > room {
            return false;
        }
        room -= count;
    }
    true
}

/// 425: the alternatives of a `select`, one with a spread counted once for each value, are at most 1,024; at `select`.
pub(crate) fn number_fault(alts: &[Alt], place: Place, env: Env) -> Option<Refusal>
    ensures { refused result ≡ rules.number_rule (env_view env.entry) (alts_view alts.now) place }
{
    fault_unless(are_few(alts, env), place, 425)
}
