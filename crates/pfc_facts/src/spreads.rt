//! The values of a spread.
ghost use Rattle.std.specs.Prelude.{◌≡◌, ℕ};
ghost use Rattle.pfc_types.specs.rules.Expressions.{find};
ghost use Rattle.pfc_semantics.specs.Alternatives as alternatives;
ghost use Rattle.pfc_semantics.specs.Expressions.{spot_of};
ghost use Rattle.pfc_phrases.specs.Views.{env_view};
ghost use Rattle.pfc_facts.specs.Views.{replicas_with};

use pfc_phrases::{Env, constant_value};
use pfc_tree::Spread;

/// The low and the high value of a spread, which has none where the low one is above the high one; None where a constant is
/// faulty.
pub fn spread_values(s: &Spread, env: Env) -> Option<(i32, i32)>
    ensures { (line : ℕ) → replicas_with (spot_of (env_view env.entry) (find (env_view env.entry) s.now.name)).spot line result ≡ alternatives.replicas
        (alternatives.context (env_view env.entry) line) s.now }
{
    let low = constant_value(&s.low, env.scopes, env.view)?;
    let high = constant_value(&s.high, env.scopes, env.view)?;
    Some((low.value, high.value))
}
