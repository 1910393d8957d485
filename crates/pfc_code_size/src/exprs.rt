//! The instructions of expressions, of variables and of arguments.
//!
//! Each function is given how many instructions were counted before, and gives how many there are with its phrase.
ghost use Rattle.std.specs.Prelude.{◌≡◌, ◌+◌, ◌<◌, if◌then◌else◌, IfOk, OnErr};
ghost use Rattle.pfc_tree.specs.views.Exprs.{expr_view, simple_view, term_view, factor_view, desig_view, summands_view, multipliers_view, selectors_view};
ghost use Rattle.pfc_tree.specs.views.Exprs.{exprs_view, actual_view, actuals_view};
ghost use Rattle.pfc_phrases.specs.Views.{env_view};
ghost use Rattle.pfc_facts.specs.Views.{function_view};
ghost use Rattle.pfc_types.specs.Scopes as scopes;
ghost use Rattle.pfc_code_size.specs.Expressions as sizes;
ghost use Rattle.pfc_code_size.specs.Lone as lone;
ghost use Rattle.pfc_code_size.specs.Parameters as parameters;

use crate::adding::{Full, more, one};
use pfc_base::Place;
use pfc_facts::{Function, function_of};
use pfc_phrases::{Env, find_in, meaning_of};
use pfc_tree::{Actual, AddOp, Desig, Expr, Factor, MulOp, Selector, Sign, Simple, Term};
use pfc_types::{Formal, Meaning};

/// With an expression.
#[cycle(exprs)]
pub(crate) fn expr(e: &Expr, env: Env, count: u32) -> Result<u32, Full>
    ensures value { IfOk result (λ total. total ≡ count + sizes.expr_size env.entry.scopes.now (env_view env.entry) (expr_view e.now)) }
    ensures large { OnErr result (200000 < count + sizes.expr_size env.entry.scopes.now (env_view env.entry) (expr_view e.now)) }
{
    let left = simple(&e.left, env, count)?;
    match &e.right {
        Some((_, right)) => one(simple(right, env, left)?),
        None => Ok(left),
    }
}

#[cycle(exprs)]
#[tactic(auto, using(crate::proofs::Nodes::nodes))]
fn simple(s: &Simple, env: Env, count: u32) -> Result<u32, Full>
    ensures value { IfOk result (λ total. total ≡ count + sizes.simple_size env.entry.scopes.now (env_view env.entry) (simple_view s.now)) }
    ensures large { OnErr result (200000 < count + sizes.simple_size env.entry.scopes.now (env_view env.entry) (simple_view s.now)) }
{
    let first = term(&s.first, env, count)?;
    summands(&s.rest, env, sign(s.sign, first)?)
}

/// With the sign before a sum.
fn sign(sign: Option<(Sign, Place)>, count: u32) -> Result<u32, Full>
    ensures value { IfOk result (λ total. total ≡ count + sizes.sign_size sign) }
    ensures large { OnErr result (200000 < count + sizes.sign_size sign) }
{
    match sign {
        Some((Sign::Minus, _)) => one(count),
        Some((Sign::Plus, _)) | None => Ok(count),
    }
}

#[cycle(exprs)]
fn summands(us: &[((AddOp, Place), Term)], env: Env, count: u32) -> Result<u32, Full>
    ensures value { IfOk result (λ total. total ≡ count + sizes.summands_size env.entry.scopes.now (env_view env.entry) (summands_view us.now)) }
    ensures large { OnErr result (200000 < count + sizes.summands_size env.entry.scopes.now (env_view env.entry) (summands_view us.now)) }
{
    let mut n = count;
    for (_, u) in us {
        n = one(term(u, env, n)?)?;
    }
    Ok(n)
}

#[cycle(exprs)]
#[tactic(auto, using(crate::proofs::Nodes::nodes))]
fn term(t: &Term, env: Env, count: u32) -> Result<u32, Full>
    ensures value { IfOk result (λ total. total ≡ count + sizes.term_size env.entry.scopes.now (env_view env.entry) (term_view t.now)) }
    ensures large { OnErr result (200000 < count + sizes.term_size env.entry.scopes.now (env_view env.entry) (term_view t.now)) }
{
    let first = factor(&t.first, env, count)?;
    multipliers(&t.rest, env, first)
}

#[cycle(exprs)]
fn multipliers(ms: &[((MulOp, Place), Factor)], env: Env, count: u32) -> Result<u32, Full>
    ensures value { IfOk result (λ total. total ≡ count + sizes.multipliers_size env.entry.scopes.now (env_view env.entry) (multipliers_view ms.now)) }
    ensures large { OnErr result (200000 < count + sizes.multipliers_size env.entry.scopes.now (env_view env.entry) (multipliers_view ms.now)) }
{
    let mut n = count;
    for (_, f) in ms {
        n = one(factor(f, env, n)?)?;
    }
    Ok(n)
}

#[cycle(exprs)]
fn factor(f: &Factor, env: Env, count: u32) -> Result<u32, Full>
    ensures value { IfOk result (λ total. total ≡ count + sizes.factor_size env.entry.scopes.now (env_view env.entry) (factor_view f.now)) }
    ensures large { OnErr result (200000 < count + sizes.factor_size env.entry.scopes.now (env_view env.entry) (factor_view f.now)) }
{
    match f {
        Factor::Number(_, _) | Factor::Literal(_, _) => one(count),
        Factor::Not(negated, _) => one(factor(negated, env, count)?),
        Factor::Paren(e, _) => expr(e, env, count),
        Factor::Use(d, args, _) => {
            let m = meaning_of(find_in(env, &d.name));
            let passed = arguments(args, m, env, count);
            match m {
                Some(Meaning::Constant { t: _, value: _ }) => one(count),
                Some(Meaning::Variable { t: _, reference: _ }) => one(desig(d, env, count)?),
                Some(Meaning::Sub(_)) => one(passed?),
                Some(Meaning::Predeclared(k)) => function(function_of(k), args, env, count),
                _ => Ok(count),
            }
        }
    }
}

/// With a predeclared function and its argument.
#[cycle(exprs)]
fn function(f: Function, args: &[Actual], env: Env, count: u32) -> Result<u32, Full>
    ensures value { IfOk result (λ total. total ≡ count + sizes.function_size (function_view f) (sizes.first_value_size env.entry.scopes.now
        (env_view env.entry) (actuals_view args.now)) (sizes.first_address_size env.entry.scopes.now (env_view env.entry) (actuals_view args.now))) }
    ensures large { OnErr result (200000 < count + sizes.function_size (function_view f) (sizes.first_value_size env.entry.scopes.now (env_view env.entry)
        (actuals_view args.now)) (sizes.first_address_size env.entry.scopes.now (env_view env.entry) (actuals_view args.now))) }
{
    match f {
        Function::Ord => first_value(args, env, count),
        Function::Eof | Function::Eoln | Function::Clock => one(count),
        Function::Empty => more(first_address(args, env, count)?, 2),
        Function::NoFunction => Ok(count),
        Function::Abs
        | Function::Sqr
        | Function::Odd
        | Function::Chr
        | Function::Succ
        | Function::Pred
        | Function::Random => one(first_value(args, env, count)?),
    }
}

/// With the value of the first argument.
#[cycle(exprs)]
pub(crate) fn first_value(args: &[Actual], env: Env, count: u32) -> Result<u32, Full>
    ensures value { IfOk result (λ total. total ≡ count + sizes.first_value_size env.entry.scopes.now (env_view env.entry) (actuals_view args.now)) }
    ensures large { OnErr result (200000 < count + sizes.first_value_size env.entry.scopes.now (env_view env.entry) (actuals_view args.now)) }
{
    match args {
        [first, ..] => actual(first, env, count),
        [] => Ok(count),
    }
}

/// With the address of the first argument.
#[cycle(exprs)]
pub(crate) fn first_address(args: &[Actual], env: Env, count: u32) -> Result<u32, Full>
    ensures value { IfOk result (λ total. total ≡ count + sizes.first_address_size env.entry.scopes.now (env_view env.entry) (actuals_view args.now)) }
    ensures large { OnErr result (200000 < count + sizes.first_address_size env.entry.scopes.now (env_view env.entry) (actuals_view args.now)) }
{
    match args {
        [first, ..] => lent(first, env, count),
        [] => Ok(count),
    }
}

/// With the value of an argument.
#[cycle(exprs)]
fn actual(a: &Actual, env: Env, count: u32) -> Result<u32, Full>
    ensures value { IfOk result (λ total. total ≡ count + sizes.actual_size env.entry.scopes.now (env_view env.entry) (actual_view a.now)) }
    ensures large { OnErr result (200000 < count + sizes.actual_size env.entry.scopes.now (env_view env.entry) (actual_view a.now)) }
{
    expr(&a.value, env, count)
}

/// With the address of an argument for a reference.
#[cycle(exprs)]
fn lent(a: &Actual, env: Env, count: u32) -> Result<u32, Full>
    ensures value { IfOk result (λ total. total ≡ count + sizes.lent_size env.entry.scopes.now (env_view env.entry) (actual_view a.now)) }
    ensures large { OnErr result (200000 < count + sizes.lent_size env.entry.scopes.now (env_view env.entry) (actual_view a.now)) }
{
    variable(&a.value, env, count)
}

/// With the address of the variable that an expression is.
#[cycle(exprs)]
fn variable(e: &Expr, env: Env, count: u32) -> Result<u32, Full>
    ensures value { IfOk result (λ total. total ≡ count + sizes.variable_size env.entry.scopes.now (env_view env.entry) (expr_view e.now)) }
    ensures large { OnErr result (200000 < count + sizes.variable_size env.entry.scopes.now (env_view env.entry) (expr_view e.now)) }
{
    match &e.right {
        Some(_) => Ok(count),
        None => lone_simple(&e.left, env, count),
    }
}

/// The same of a sum: one without a sign that is its first term alone.
#[cycle(exprs)]
#[tactic(auto, using(crate::proofs::Nodes::nodes, crate::proofs::Lone::lone))]
fn lone_simple(s: &Simple, env: Env, count: u32) -> Result<u32, Full>
    ensures value { IfOk result (λ total. total ≡ count + sizes.lone_simple_size env.entry.scopes.now (env_view env.entry) (simple_view s.now)) }
    ensures large { OnErr result (200000 < count + sizes.lone_simple_size env.entry.scopes.now (env_view env.entry) (simple_view s.now)) }
{
    if is_lone_sum(s.sign, &s.rest) {
        lone_term(&s.first, env, count)
    } else {
        Ok(count)
    }
}

/// Whether nothing stands before a term and behind it.
fn is_lone_sum(sign: Option<(Sign, Place)>, us: &[((AddOp, Place), Term)]) -> bool
    ensures { result ≡ lone.is_lone_sum sign (summands_view us.now) }
{
    sign.is_none() && no_summand(us)
}

fn no_summand(us: &[((AddOp, Place), Term)]) -> bool
    ensures { result ≡ lone.no_summand (summands_view us.now) }
{
    match us {
        [] => true,
        [_first, _rest @ ..] => false,
    }
}

/// The same of a term that is its first factor alone.
#[cycle(exprs)]
#[tactic(auto, using(crate::proofs::Nodes::nodes, crate::proofs::Lone::lone))]
fn lone_term(t: &Term, env: Env, count: u32) -> Result<u32, Full>
    ensures value { IfOk result (λ total. total ≡ count + sizes.lone_term_size env.entry.scopes.now (env_view env.entry) (term_view t.now)) }
    ensures large { OnErr result (200000 < count + sizes.lone_term_size env.entry.scopes.now (env_view env.entry) (term_view t.now)) }
{
    if no_multiplier(&t.rest) {
        lone_factor(&t.first, env, count)
    } else {
        Ok(count)
    }
}

fn no_multiplier(ms: &[((MulOp, Place), Factor)]) -> bool
    ensures { result ≡ lone.no_multiplier (multipliers_view ms.now) }
{
    match ms {
        [] => true,
        [_first, _rest @ ..] => false,
    }
}

/// The same of a factor that is a name.
#[cycle(exprs)]
fn lone_factor(f: &Factor, env: Env, count: u32) -> Result<u32, Full>
    ensures value { IfOk result (λ total. total ≡ count + sizes.lone_factor_size env.entry.scopes.now (env_view env.entry) (factor_view f.now)) }
    ensures large { OnErr result (200000 < count + sizes.lone_factor_size env.entry.scopes.now (env_view env.entry) (factor_view f.now)) }
{
    match f {
        Factor::Use(d, args, _) => lone_name(d, args, env, count),
        Factor::Number(_, _) => Ok(count),
        Factor::Literal(_, _) => Ok(count),
        Factor::Not(_, _) => Ok(count),
        Factor::Paren(_, _) => Ok(count),
    }
}

/// The same of a name, where it has no arguments.
#[cycle(exprs)]
fn lone_name(d: &Desig, args: &[Actual], env: Env, count: u32) -> Result<u32, Full>
    ensures value { IfOk result (λ total. total ≡ count + sizes.lone_size (actuals_view args.now)
        (sizes.desig_size env.entry.scopes.now (env_view env.entry) (desig_view d.now))) }
    ensures large { OnErr result (200000 < count + sizes.lone_size (actuals_view args.now)
        (sizes.desig_size env.entry.scopes.now (env_view env.entry) (desig_view d.now))) }
{
    match args {
        [] => desig(d, env, count),
        [_first, _rest @ ..] => Ok(count),
    }
}

/// The parameters of what is called.
fn formals_of<'a>(m: Option<Meaning>, env: Env<'a>) -> &'a [Formal]
    ensures { result.now ≡ parameters.formals_of env.entry.scopes.now m }
{
    match m {
        Some(Meaning::Sub(n)) => env.scopes.sub_formals(n),
        _ => &[],
    }
}

/// With the arguments of what is called.
#[cycle(exprs)]
fn arguments(args: &[Actual], m: Option<Meaning>, env: Env, count: u32) -> Result<u32, Full>
    ensures value { IfOk result (λ total. total ≡ count + sizes.args_size env.entry.scopes.now (env_view env.entry)
        (parameters.formals_of env.entry.scopes.now m) (actuals_view args.now)) }
    ensures large { OnErr result (200000 < count + sizes.args_size env.entry.scopes.now (env_view env.entry)
        (parameters.formals_of env.entry.scopes.now m) (actuals_view args.now)) }
{
    let mut sum = count;
    let mut left = formals_of(m, env);
    for a in args {
        let [formal, rest @ ..] = left else {
            return Ok(sum)
        };
        sum = argument(a, formal.reference, env, sum)?;
        left = rest;
    }
    Ok(sum)
}

/// With arguments by their parameters: a value, or an address for a reference.
pub(crate) fn pass(args: &[Actual], formals: &[Formal], env: Env, count: u32) -> Result<u32, Full>
    ensures value { IfOk result (λ total. total ≡ count + sizes.args_size env.entry.scopes.now (env_view env.entry) formals.now (actuals_view args.now)) }
    ensures large { OnErr result (200000 < count + sizes.args_size env.entry.scopes.now (env_view env.entry) formals.now (actuals_view args.now)) }
{
    let mut n = count;
    let mut left = formals;
    for a in args {
        let [formal, rest @ ..] = left else {
            return Ok(n)
        };
        n = argument(a, formal.reference, env, n)?;
        left = rest;
    }
    Ok(n)
}

/// With an argument for a reference or for a value.
#[cycle(exprs)]
fn argument(a: &Actual, reference: bool, env: Env, count: u32) -> Result<u32, Full>
    ensures value { IfOk result (λ total. total ≡ count + (if reference then
        sizes.lent_size env.entry.scopes.now (env_view env.entry) (actual_view a.now) else sizes.actual_size env.entry.scopes.now
        (env_view env.entry) (actual_view a.now))) }
    ensures large { OnErr result (200000 < count + (if reference then
        sizes.lent_size env.entry.scopes.now (env_view env.entry) (actual_view a.now) else sizes.actual_size env.entry.scopes.now
        (env_view env.entry) (actual_view a.now))) }
{
    if reference {
        lent(a, env, count)
    } else {
        actual(a, env, count)
    }
}

/// With the address of a variable and its selectors.
#[cycle(exprs)]
pub(crate) fn desig(d: &Desig, env: Env, count: u32) -> Result<u32, Full>
    ensures value { IfOk result (λ total. total ≡ count + sizes.desig_size env.entry.scopes.now (env_view env.entry) (desig_view d.now)) }
    ensures large { OnErr result (200000 < count + sizes.desig_size env.entry.scopes.now (env_view env.entry) (desig_view d.now)) }
{
    selectors(&d.selectors, env, one(count)?)
}

/// With the object that a designator is.
pub(crate) fn object(d: &Desig, env: Env, count: u32) -> Result<u32, Full>
    ensures value { IfOk result (λ total. total ≡ count + sizes.object_size env.entry.scopes.now (env_view env.entry) (desig_view d.now)) }
    ensures large { OnErr result (200000 < count + sizes.object_size env.entry.scopes.now (env_view env.entry) (desig_view d.now)) }
{
    one(desig(d, env, count)?)
}

/// With selectors.
#[cycle(exprs)]
pub(crate) fn selectors(ss: &[Selector], env: Env, count: u32) -> Result<u32, Full>
    ensures value { IfOk result (λ total. total ≡ count + sizes.selectors_size env.entry.scopes.now (env_view env.entry) (selectors_view ss.now)) }
    ensures large { OnErr result (200000 < count + sizes.selectors_size env.entry.scopes.now (env_view env.entry) (selectors_view ss.now)) }
{
    let mut n = count;
    for s in ss {
        n = match s {
            Selector::Index(es, _) => indices(es, env, n)?,
            Selector::Field(_, _) => one(n)?,
        };
    }
    Ok(n)
}

#[cycle(exprs)]
fn indices(es: &[Expr], env: Env, count: u32) -> Result<u32, Full>
    ensures value { IfOk result (λ total. total ≡ count + sizes.indices_size env.entry.scopes.now (env_view env.entry) (exprs_view es.now)) }
    ensures large { OnErr result (200000 < count + sizes.indices_size env.entry.scopes.now (env_view env.entry) (exprs_view es.now)) }
{
    let mut n = count;
    for e in es {
        n = one(expr(e, env, n)?)?;
    }
    Ok(n)
}
