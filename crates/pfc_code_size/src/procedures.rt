//! The instructions of predeclared procedures.
ghost use Rattle.std.specs.Prelude.{◌≡◌, ◌+◌, ◌<◌, option_map, IfOk, OnErr};
ghost use Rattle.pfc_tree.specs.views.Exprs.{expr_view, actuals_view};
ghost use Rattle.pfc_semantics.specs.Statements as statements;
ghost use Rattle.pfc_phrases.specs.Views.{env_view};
ghost use Rattle.pfc_facts.specs.Views.{procedure_view};
ghost use Rattle.pfc_code_size.specs.Calls as sizes;

use crate::adding::{Full, one};
use crate::exprs::{expr, first_address, first_value};
use crate::output::{reads, writes};
use pfc_facts::Procedure;
use pfc_phrases::Env;
use pfc_tree::{Actual, Expr};

/// With a predeclared procedure and its arguments.
pub(crate) fn procedure(p: Procedure, args: &[Actual], env: Env, count: u32) -> Result<u32, Full>
    ensures value { IfOk result (λ total. total ≡ count + sizes.procedure_size env.entry.scopes.now (env_view env.entry)
        (procedure_view p) (actuals_view args.now)) }
    ensures large { OnErr result (200000 < count + sizes.procedure_size env.entry.scopes.now (env_view env.entry) (procedure_view p) (actuals_view args.now)) }
{
    match p {
        Procedure::Reader(skip) => reads(args, skip, env, count),
        Procedure::Writer(newline) => writes(args, newline, env, count),
        Procedure::Initial => one(given(second(args), env, first_object(args, env, count)?)?),
        Procedure::Wait | Procedure::Signal | Procedure::Resume => one(first_object(
            args, env, count,
        )?),
        Procedure::Delay => one(rank(second(args), env, first_object(args, env, count)?)?),
        Procedure::Sleep => one(first_value(args, env, count)?),
        Procedure::NoProcedure => Ok(count),
    }
}

/// The second argument, where there is one.
fn second(args: &[Actual]) -> Option<&Expr>
    ensures { option_map (λ e. expr_view e.now) result ≡ statements.expr_of (statements.behind_first (actuals_view args.now)) }
{
    match args {
        [] => None,
        [_first] => None,
        [_first, second, _rest @ ..] => Some(&second.value),
    }
}

/// With the first argument, as an object.
fn first_object(args: &[Actual], env: Env, count: u32) -> Result<u32, Full>
    ensures value { IfOk result (λ total. total ≡ count + sizes.first_object_size env.entry.scopes.now (env_view env.entry) (actuals_view args.now)) }
    ensures large { OnErr result (200000 < count + sizes.first_object_size env.entry.scopes.now (env_view env.entry) (actuals_view args.now)) }
{
    one(first_address(args, env, count)?)
}

/// With the count of `initial`.
fn given(e: Option<&Expr>, env: Env, count: u32) -> Result<u32, Full>
    ensures value { IfOk result (λ total. total ≡ count + sizes.given_size env.entry.scopes.now (env_view env.entry)
        (option_map (λ x. expr_view x.now) e.entry)) }
    ensures large { OnErr result (200000 < count + sizes.given_size env.entry.scopes.now (env_view env.entry) (option_map (λ x. expr_view x.now) e.entry)) }
{
    match e {
        Some(e) => expr(e, env, count),
        None => Ok(count),
    }
}

/// With the rank of `delay`, which is 0 where none is given.
fn rank(e: Option<&Expr>, env: Env, count: u32) -> Result<u32, Full>
    ensures value { IfOk result (λ total. total ≡ count + sizes.rank_size env.entry.scopes.now (env_view env.entry)
        (option_map (λ x. expr_view x.now) e.entry)) }
    ensures large { OnErr result (200000 < count + sizes.rank_size env.entry.scopes.now (env_view env.entry) (option_map (λ x. expr_view x.now) e.entry)) }
{
    match e {
        Some(e) => expr(e, env, count),
        None => one(count),
    }
}
