//! The instructions of `write` and `read`, and of their lists.
ghost use Rattle.std.specs.Prelude.{◌≡◌, ◌+◌, ◌<◌, if◌then◌else◌, IfOk, OnErr};
ghost use Rattle.pfc_tree.specs.views.Exprs.{expr_view, actual_view, actuals_view};
ghost use Rattle.pfc_types.specs.rules.Expressions as rules;
ghost use Rattle.pfc_semantics.specs.Statements.{as_string as string_of, item_of};
ghost use Rattle.pfc_phrases.specs.Views.{env_view};
ghost use Rattle.pfc_code_size.specs.Calls as sizes;

use crate::adding::{Full, one};
use crate::exprs::{desig, expr};
use pfc_facts::as_string;
use pfc_phrases::{Env, as_desig};
use pfc_tree::{Actual, Expr};

/// With the instruction of `writeln` or `readln` behind the items, where it is there.
fn line_end(there: bool, count: u32) -> Result<u32, Full>
    ensures value { IfOk result (λ total. total ≡ count + (if there then 1 else 0)) }
    ensures large { OnErr result (200000 < count + (if there then 1 else 0)) }
{
    if there { one(count) } else { Ok(count) }
}

/// With the items of `write`, or of `writeln`.
pub(crate) fn writes(items: &[Actual], newline: bool, env: Env, count: u32) -> Result<u32, Full>
    ensures value { IfOk result (λ total. total ≡ count + sizes.writes_size env.entry.scopes.now (env_view env.entry) (actuals_view items.now) newline) }
    ensures large { OnErr result (200000 < count + sizes.writes_size env.entry.scopes.now (env_view env.entry) (actuals_view items.now) newline) }
{
    let mut n = count;
    for a in items {
        n = item(a, env, n)?;
    }
    line_end(newline, n)
}

fn item(a: &Actual, env: Env, count: u32) -> Result<u32, Full>
    ensures value { IfOk result (λ total. total ≡ count + sizes.item_size env.entry.scopes.now (env_view env.entry) (actual_view a.now)) }
    ensures large { OnErr result (200000 < count + sizes.item_size env.entry.scopes.now (env_view env.entry) (actual_view a.now)) }
{
    match &a.width {
        None => plain_item(&a.value, env, count),
        Some(width) => wide_item(&a.value, width, env, count),
    }
}

fn plain_item(e: &Expr, env: Env, count: u32) -> Result<u32, Full>
    ensures value { IfOk result (λ total. total ≡ count + sizes.plain_item_size env.entry.scopes.now (env_view env.entry)
        (string_of (expr_view e.now)) (expr_view e.now)) }
    ensures large { OnErr result (200000 < count + sizes.plain_item_size env.entry.scopes.now (env_view env.entry)
        (string_of (expr_view e.now)) (expr_view e.now)) }
{
    match as_string(e) {
        Some(_) => one(count),
        None => one(expr(e, env, count)?),
    }
}

fn wide_item(e: &Expr, width: &Expr, env: Env, count: u32) -> Result<u32, Full>
    ensures value { IfOk result (λ total. total ≡ count + sizes.wide_item_size env.entry.scopes.now (env_view env.entry) (string_of (expr_view e.now))
        (expr_view e.now) (expr_view width.now)) }
    ensures large { OnErr result (200000 < count + sizes.wide_item_size env.entry.scopes.now (env_view env.entry) (string_of (expr_view e.now))
        (expr_view e.now) (expr_view width.now)) }
{
    let value = match as_string(e) {
        Some(_) => count,
        None => expr(e, env, count)?,
    };
    one(expr(width, env, value)?)
}

/// With the variables of `read`, or of `readln`.
pub(crate) fn reads(args: &[Actual], skip: bool, env: Env, count: u32) -> Result<u32, Full>
    ensures value { IfOk result (λ total. total ≡ count + sizes.reads_size env.entry.scopes.now (env_view env.entry) (actuals_view args.now) skip) }
    ensures large { OnErr result (200000 < count + sizes.reads_size env.entry.scopes.now (env_view env.entry) (actuals_view args.now) skip) }
{
    let mut n = count;
    for a in args {
        n = input(a, env, n)?;
    }
    line_end(skip, n)
}

fn input(a: &Actual, env: Env, count: u32) -> Result<u32, Full>
    ensures value { IfOk result (λ total. total ≡ count + sizes.input_size env.entry.scopes.now (env_view env.entry)
        (rules.as_desig (item_of (actual_view a.now)))) }
    ensures large { OnErr result (200000 < count + sizes.input_size env.entry.scopes.now (env_view env.entry) (rules.as_desig (item_of (actual_view a.now)))) }
{
    match as_desig(&a.value) {
        Some(d) => one(desig(d, env, count)?),
        None => Ok(count),
    }
}
