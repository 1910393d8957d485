//! The instructions of the alternatives of a select, up to its decision.
ghost use Rattle.std.specs.Prelude.{◌≡◌, ◌+◌, ◌<◌, ◌*◌, int_le, if◌then◌else◌, option_map, IfOk, OnErr};
ghost use Rattle.pfc_tree.specs.views.Exprs.{expr_view};
ghost use Rattle.pfc_tree.specs.views.Stmts.{alt_view, alts_view, comm_view};
ghost use Rattle.pfc_types.specs.Types as types;
ghost use Rattle.pfc_phrases.specs.Views.{env_view};
ghost use Rattle.pfc_code_size.specs.Statements as sizes;

use crate::adding::{Full, one, times};
use crate::communication::{receive, send};
use crate::exprs::expr;
use pfc_facts::spread_values;
use pfc_phrases::Env;
use pfc_tree::{Alt, Comm, Expr, Spread};

/// With the alternatives of a select, each value of a replicated one apart.
pub(crate) fn alternatives(alts: &[Alt], env: Env, count: u32) -> Result<u32, Full>
    ensures value { IfOk result (λ total. total ≡ count + sizes.alternatives_size env.entry.scopes.now (env_view env.entry) (alts_view alts.now)) }
    ensures large { OnErr result (200000 < count + sizes.alternatives_size env.entry.scopes.now (env_view env.entry) (alts_view alts.now)) }
{
    let mut n = count;
    for a in alts {
        n = alternative(&a.spread, &a.guard, &a.comm, env, n)?;
    }
    Ok(n)
}

fn alternative(
    spread: &Option<Spread>,
    guard: &Option<Expr>,
    comm: &Comm,
    env: Env,
    count: u32,
) -> Result<u32, Full>
    ensures value { IfOk result (λ total. total ≡ count + sizes.spread_size (env_view env.entry) spread.now (sizes.guarded_size env.entry.scopes.now
        (env_view env.entry) (option_map expr_view guard.now) (comm_view comm.now))) }
    ensures large { OnErr result (200000 < count + sizes.spread_size (env_view env.entry) spread.now (sizes.guarded_size env.entry.scopes.now
        (env_view env.entry) (option_map expr_view guard.now) (comm_view comm.now))) }
{
    match spread {
        None => guarded(guard, comm, env, count),
        Some(s) => replicated(values(s, env), guard, comm, env, count),
    }
}

/// With a replicated alternative that has so many values.
fn replicated(
    values: u64,
    guard: &Option<Expr>,
    comm: &Comm,
    env: Env,
    count: u32,
) -> Result<u32, Full>
    ensures value { IfOk result (λ total. total ≡ count + values * (3 + sizes.guarded_size env.entry.scopes.now (env_view env.entry)
        (option_map expr_view guard.now) (comm_view comm.now))) }
    ensures large { OnErr result (200000 < count + values * (3 + sizes.guarded_size env.entry.scopes.now (env_view env.entry)
        (option_map expr_view guard.now) (comm_view comm.now))) }
{
    if values == 0 {
        return Ok(count);
    }
    times(count, values, guarded(guard, comm, env, 3)?)
}

/// With the guard of an alternative and what it waits for.
fn guarded(guard: &Option<Expr>, comm: &Comm, env: Env, count: u32) -> Result<u32, Full>
    ensures value { IfOk result (λ total. total ≡ count + sizes.guarded_size env.entry.scopes.now (env_view env.entry)
        (option_map expr_view guard.now) (comm_view comm.now)) }
    ensures large { OnErr result (200000 < count + sizes.guarded_size env.entry.scopes.now (env_view env.entry)
        (option_map expr_view guard.now) (comm_view comm.now)) }
{
    match guard {
        Some(test) => wait_for(comm, env, one(expr(test, env, count)?)?),
        None => wait_for(comm, env, count),
    }
}

/// With what an alternative waits for.
fn wait_for(comm: &Comm, env: Env, count: u32) -> Result<u32, Full>
    ensures value { IfOk result (λ total. total ≡ count + sizes.comm_size env.entry.scopes.now (env_view env.entry) (comm_view comm.now)) }
    ensures large { OnErr result (200000 < count + sizes.comm_size env.entry.scopes.now (env_view env.entry) (comm_view comm.now)) }
{
    match comm {
        Comm::Accept(_, _) | Comm::Terminate(_) => one(count),
        Comm::Send(d, e, _) => send(d, e, env, count),
        Comm::Receive(d, v, _) => receive(d, v, env, count),
        Comm::Timeout(e, _) => one(expr(e, env, count)?),
    }
}

/// How many values a spread has.
fn values(s: &Spread, env: Env) -> u64
    ensures { result ≡ sizes.values_in (env_view env.entry) s.now }
{
    match bounds(s, env) {
        Some((low, high)) => extent(low, high),
        None => 0,
    }
}

/// The low and the high value of a spread.
fn bounds(s: &Spread, env: Env) -> Option<(i32, i32)>
    ensures { sizes.values_between result ≡ sizes.values_in (env_view env.entry) s.now }
{
    spread_values(s, env)
}

/// How many values stand from a low one to a high one.
fn extent(low: i32, high: i32) -> u64
    ensures { result ≡ (if int_le low high then types.extent low high else 0) }
{
    if low <= high {
        (i64::from(high) - i64::from(low) + 1) as u64
    } else {
        0
    }
}

/// With what writes the variable of a spread again where a value is chosen.
pub(crate) fn chosen(spread: &Option<Spread>, env: Env, count: u32) -> Result<u32, Full>
    ensures value { IfOk result (λ total. total ≡ count + sizes.chosen_size (env_view env.entry) spread.now) }
    ensures large { OnErr result (200000 < count + sizes.chosen_size (env_view env.entry) spread.now) }
{
    match spread {
        None => Ok(count),
        Some(s) => times(count, values(s, env), 4),
    }
}
