//! Numbers of scopes and of alternatives.
ghost use Rattle.std.specs.Prelude.{◌≡◌, ◌+◌, int_le, if◌then◌else◌, IfOk, IfErr};
ghost use Rattle.pfc_tree.specs.views.Stmts.{alts_view};
ghost use Rattle.pfc_types.specs.Types as types;
ghost use Rattle.pfc_phrases.specs.Views.{env_view};
ghost use Rattle.pfc_emit.specs.declared.emitter.EmitFault.TheVariants.{Memory as NoMemory};
ghost use Rattle.pfc_unseen_code.specs.Counts.{alternative_count, copies_in, values_in, values_between};

use pfc_emit::EmitFault;
use pfc_facts::spread_values;
use pfc_phrases::Env;
use pfc_tree::{Alt, Spread};
use pfc_types::value_count;

/// The number of the scope behind one. One of more than 32 bits, which no checked tree reaches, counts as want of memory.
pub(crate) fn following(next: u32) -> Result<u32, EmitFault>
    ensures value { IfOk result (λ n. n ≡ next + 1) }
    ensures fault { IfErr result (λ fault. fault ≡ NoMemory) }
{
    match next.checked_add(1) {
        Some(n) => Ok(n),
        None => Err(EmitFault::Memory),
    }
}

/// How many alternatives a select has, each value of a replicated one apart. A number of more than 32 bits counts as want of memory.
pub(crate) fn count(alts: &[Alt], env: Env) -> Result<u32, EmitFault>
    ensures value { IfOk result (λ k. k ≡ alternative_count (env_view env.entry) (alts_view alts.now)) }
    ensures fault { IfErr result (λ fault. fault ≡ NoMemory) }
{
    let mut sum = 0u64;
    for a in alts {
        match sum.checked_add(copies(&a.spread, env)) {
            Some(more) => sum = more,
            None => return Err(EmitFault::Memory),
        }
    }
    match u32::try_from(sum) {
        Ok(count) => Ok(count),
        Err(_) => Err(EmitFault::Memory),
    }
}

/// How many alternatives one of the text stands for.
fn copies(spread: &Option<Spread>, env: Env) -> u64
    ensures { result ≡ copies_in (env_view env.entry) spread.now }
{
    match spread {
        None => 1,
        Some(s) => values(s, env),
    }
}

/// How many values a spread has.
fn values(s: &Spread, env: Env) -> u64
    ensures { result ≡ values_in (env_view env.entry) s.now }
{
    match bounds(s, env) {
        Some((low, high)) => extent(low, high),
        None => 0,
    }
}

/// The low and the high value of a spread.
fn bounds(s: &Spread, env: Env) -> Option<(i32, i32)>
    ensures { values_between result ≡ values_in (env_view env.entry) s.now }
{
    spread_values(s, env)
}

/// How many values stand from a low one to a high one.
fn extent(low: i32, high: i32) -> u64
    ensures { result ≡ (if int_le low high then types.extent low high else 0) }
{
    if low <= high {
        value_count(low, high)
    } else {
        0
    }
}
