//! The instructions of assignments, and of messages that are sent and received.
ghost use Rattle.std.specs.Prelude.{◌≡◌, ◌+◌, ◌<◌, option_map, IfOk, OnErr};
ghost use Rattle.pfc_tree.specs.views.Exprs.{expr_view, desig_view};
ghost use Rattle.pfc_semantics.specs.Alternatives as alternatives;
ghost use Rattle.pfc_phrases.specs.Views.{env_view};
ghost use Rattle.pfc_code_size.specs.Statements as sizes;

use crate::adding::{Full, one};
use crate::exprs::{desig, expr, object};
use pfc_facts::{message_of, receiver_of};
use pfc_phrases::Env;
use pfc_tree::{Desig, Expr};

/// With an assignment.
pub(crate) fn assign(d: &Desig, e: &Expr, env: Env, count: u32) -> Result<u32, Full>
    ensures value { IfOk result (λ total. total ≡ count + sizes.assign_size env.entry.scopes.now (env_view env.entry) (desig_view d.now) (expr_view e.now)) }
    ensures large { OnErr result (200000 < count + sizes.assign_size env.entry.scopes.now (env_view env.entry) (desig_view d.now) (expr_view e.now)) }
{
    let target = desig(d, env, count)?;
    one(expr(e, env, target)?)
}

/// With `c ! e`, or with such an alternative.
pub(crate) fn send(d: &Desig, e: &Expr, env: Env, count: u32) -> Result<u32, Full>
    ensures value { IfOk result (λ total. total ≡ count + sizes.send_size env.entry.scopes.now (env_view env.entry) (desig_view d.now) (expr_view e.now)) }
    ensures large { OnErr result (200000 < count + sizes.send_size env.entry.scopes.now (env_view env.entry) (desig_view d.now) (expr_view e.now)) }
{
    let channel = object(d, env, count)?;
    one(message(sent(e, env), env, channel)?)
}

/// What is sent: nothing for `any`.
fn sent<'a>(e: &'a Expr, env: Env) -> Option<&'a Expr>
    ensures { option_map (λ x. expr_view x.now) result ≡ alternatives.message_of (alternatives.context (env_view env.entry) 0) (expr_view e.now) }
{
    message_of(e, env)
}

fn message(e: Option<&Expr>, env: Env, count: u32) -> Result<u32, Full>
    ensures value { IfOk result (λ total. total ≡ count + sizes.message_size env.entry.scopes.now (env_view env.entry)
        (option_map (λ x. expr_view x.now) e.entry)) }
    ensures large { OnErr result (200000 < count + sizes.message_size env.entry.scopes.now (env_view env.entry) (option_map (λ x. expr_view x.now) e.entry)) }
{
    match e {
        Some(e) => expr(e, env, count),
        None => Ok(count),
    }
}

/// With `c ? v`, or with such an alternative.
pub(crate) fn receive(d: &Desig, v: &Desig, env: Env, count: u32) -> Result<u32, Full>
    ensures value { IfOk result (λ total. total ≡ count + sizes.receive_size env.entry.scopes.now (env_view env.entry) (desig_view d.now) (desig_view v.now)) }
    ensures large { OnErr result (200000 < count + sizes.receive_size env.entry.scopes.now (env_view env.entry) (desig_view d.now) (desig_view v.now)) }
{
    let channel = object(d, env, count)?;
    one(receiver(received(v, env), env, channel)?)
}

/// The variable that receives: none for `any`.
fn received<'a>(v: &'a Desig, env: Env) -> Option<&'a Desig>
    ensures { option_map (λ x. desig_view x.now) result ≡ alternatives.receiver_of (alternatives.context (env_view env.entry) 0) (desig_view v.now) }
{
    receiver_of(v, env)
}

fn receiver(v: Option<&Desig>, env: Env, count: u32) -> Result<u32, Full>
    ensures value { IfOk result (λ total. total ≡ count + sizes.receiver_size env.entry.scopes.now (env_view env.entry)
        (option_map (λ x. desig_view x.now) v.entry)) }
    ensures large { OnErr result (200000 < count + sizes.receiver_size env.entry.scopes.now (env_view env.entry) (option_map (λ x. desig_view x.now) v.entry)) }
{
    match v {
        Some(v) => desig(v, env, count),
        None => Ok(count),
    }
}
