//! The instructions of statements.
//!
//! Each function is given how far the count has come before its phrase, and gives how far it comes with it. A scope's number of more than
//! 32 bits counts as want of memory.
ghost use Rattle.std.specs.Prelude.{◌≡◌, ◌+◌, ◌<◌, option_map, IfOk, OnErr, IfErr};
ghost use Rattle.pfc_tree.specs.views.Exprs.{expr_view};
ghost use Rattle.pfc_tree.specs.views.Stmts.{stmt_view, stmts_view, arms_view, accept_view, alts_view, alt_view, comm_view};
ghost use Rattle.pfc_types.specs.Views.{levels};
ghost use Rattle.pfc_types.specs.rules.Statements as rules;
ghost use Rattle.pfc_phrases.specs.Views.{env_view};
ghost use Rattle.pfc_code_size.specs.Expressions.{expr_size};
ghost use Rattle.pfc_code_size.specs.Statements as sizes;
ghost use Rattle.pfc_code_size.specs.declared.adding.CountFault.TheVariants.{TooLarge};

use crate::CountFault;
use crate::adding::{Full, more, one};
use crate::calls::{call, requeue};
use crate::communication::{assign, receive, send};
use crate::exprs::expr;
use crate::selects::{alternatives, chosen};
use pfc_base::Memory;
use pfc_phrases::Env;
use pfc_program::{behind_comm, behind_stmts};
use pfc_rules::passing::names_in;
use pfc_tree::{Accept, Alt, CaseArm, Comm, Expr, Stmt};
use pfc_types::View;

/// How far the count has come: the instructions so far, and the number of the next scope of the text.
#[derive(Clone, Copy)]
pub(crate) struct Reached {
    pub count: u32,
    pub next: u32,
}

impl Reached {
    /// So many instructions, before the same scope.
    fn at(self, count: u32) -> Reached
        ensures { result ≡ record { count = count; next = self.next } }
    {
        Reached {
            count,
            next: self.next,
        }
    }
}

/// The number of the scope behind one.
fn following(next: u32) -> Result<u32, Memory>
    ensures { IfOk result (λ total. total ≡ next + 1) }
{
    match next.checked_add(1) {
        Some(n) => Ok(n),
        None => Err(Memory),
    }
}

/// With a statement.
#[cycle(stmts)]
fn stmt(s: &Stmt, env: Env, from: Reached) -> Result<Reached, CountFault>
    ensures count { IfOk result (λ r. r.count ≡ from.count + sizes.stmt_size env.entry.scopes.now (env_view env.entry) from.next (stmt_view s.now)) }
    ensures next { IfOk result (λ r. r.next ≡ from.next + rules.scopes_in (stmt_view s.now)) }
    ensures large { IfErr result (λ f. f ≡ TooLarge →
        200000 < from.count + sizes.stmt_size env.entry.scopes.now (env_view env.entry) from.next (stmt_view s.now)) }
{
    match s {
        Stmt::Empty | Stmt::Null(_) => Ok(from),
        Stmt::Block(body, _) => stmts(&body.stmts, env, from),
        Stmt::If(e, then, other, _) => {
            let then = stmt(then, env, test(e, env, from)?)?;
            match other {
                Some(other) => stmt(other, env, jump(then)?),
                None => Ok(then),
            }
        }
        Stmt::Case(e, all, _, _) => arms(all, env, tests(e, all, env, from)?),
        Stmt::While(e, repeated, _) => jump(stmt(repeated, env, test(e, env, from)?)?),
        Stmt::Repeat(ss, until, _) => turned(until, env, stmts(ss, env, from)?),
        Stmt::For(_, a, _, b, repeated, _, _) => {
            jump(stmt(repeated, env, range(a, b, env, from)?)?)
        }
        Stmt::Cobegin(ss, _, _) => jump(stmts(ss, env, from)?),
        Stmt::Accept(a, _) => jump(accept(a, env, jump(from)?)?),
        Stmt::Select(_, alts, other, _, _) => {
            let behind = branches(alts, env, decision(alts, env, from)?)?;
            match other {
                Some((ss, _)) => stmts(ss, env, behind),
                None => Ok(behind),
            }
        }
        Stmt::Requeue(x, args, _) => Ok(from.at(requeue(&x.0, args, env, from.count)?)),
        Stmt::Assign(d, e, _, _) => Ok(from.at(assign(d, e, env, from.count)?)),
        Stmt::Send(d, e, _, _) => Ok(from.at(send(d, e, env, from.count)?)),
        Stmt::Receive(d, v, _, _) => Ok(from.at(receive(d, v, env, from.count)?)),
        Stmt::Call(d, args, _) => Ok(from.at(call(d, args, env, from.count)?)),
    }
}

/// With one instruction more.
fn jump(from: Reached) -> Result<Reached, CountFault>
    ensures count { IfOk result (λ r. r.count ≡ from.count + 1) }
    ensures next { IfOk result (λ r. r.next ≡ from.next) }
    ensures large { IfErr result (λ f. f ≡ TooLarge → 200000 < from.count + 1) }
{
    Ok(from.at(one(from.count)?))
}

/// With the condition of `if` or `while`, and the jump behind it.
fn test(e: &Expr, env: Env, from: Reached) -> Result<Reached, CountFault>
    ensures count { IfOk result (λ r. r.count ≡ from.count + (expr_size env.entry.scopes.now (env_view env.entry) (expr_view e.now) + 1)) }
    ensures next { IfOk result (λ r. r.next ≡ from.next) }
    ensures large { IfErr result (λ f. f ≡ TooLarge → 200000 < from.count + (expr_size env.entry.scopes.now (env_view env.entry) (expr_view e.now) + 1)) }
{
    Ok(from.at(one(expr(e, env, from.count)?)?))
}

/// With what stands before the arms of a `case`: a test for each label, and the fault behind them.
fn tests(e: &Expr, all: &[CaseArm], env: Env, from: Reached) -> Result<Reached, CountFault>
    ensures count { IfOk result (λ r. r.count ≡ from.count + (expr_size env.entry.scopes.now (env_view env.entry) (expr_view e.now) +
        (sizes.label_count (arms_view all.now) + 1))) }
    ensures next { IfOk result (λ r. r.next ≡ from.next) }
    ensures large { IfErr result (λ f. f ≡ TooLarge →
        200000 < from.count + (expr_size env.entry.scopes.now (env_view env.entry) (expr_view e.now) + (sizes.label_count (arms_view all.now) + 1))) }
{
    let value = expr(e, env, from.count)?;
    Ok(from.at(one(labels(all, value)?)?))
}

/// With a test for each label.
fn labels(all: &[CaseArm], count: u32) -> Result<u32, Full>
    ensures value { IfOk result (λ total. total ≡ count + sizes.label_count (arms_view all.now)) }
    ensures large { OnErr result (200000 < count + sizes.label_count (arms_view all.now)) }
{
    let mut n = count;
    for a in all {
        n = more(n, a.labels.len() as u64)?;
    }
    Ok(n)
}

/// With what stands behind the statements of a `repeat`.
fn turned(until: &Option<Box<Expr>>, env: Env, from: Reached) -> Result<Reached, CountFault>
    ensures count { IfOk result (λ r. r.count ≡
        from.count + sizes.until_size env.entry.scopes.now (env_view env.entry) (option_map (λ e. expr_view e.value) until.now)) }
    ensures next { IfOk result (λ r. r.next ≡ from.next) }
    ensures large { IfErr result (λ f. f ≡ TooLarge →
        200000 < from.count + sizes.until_size env.entry.scopes.now (env_view env.entry) (option_map (λ e. expr_view e.value) until.now)) }
{
    let count = match until {
        Some(e) => more(expr(e, env, from.count)?, 3)?,
        None => one(from.count)?,
    };
    Ok(from.at(count))
}

/// With what stands before the statement of a `for`: the variable, the range, and the two instructions that begin it.
fn range(a: &Expr, b: &Expr, env: Env, from: Reached) -> Result<Reached, CountFault>
    ensures count { IfOk result
        (λ r. r.count ≡ from.count +
        (1 + (expr_size env.entry.scopes.now (env_view env.entry) (expr_view a.now) +
        (expr_size env.entry.scopes.now (env_view env.entry) (expr_view b.now) + 2)))) }
    ensures next { IfOk result (λ r. r.next ≡ from.next) }
    ensures large { IfErr result (λ f. f ≡ TooLarge →
        200000 < from.count +
        (1 + (expr_size env.entry.scopes.now (env_view env.entry) (expr_view a.now) +
        (expr_size env.entry.scopes.now (env_view env.entry) (expr_view b.now) + 2)))) }
{
    let low = expr(a, env, one(from.count)?)?;
    Ok(from.at(more(expr(b, env, low)?, 2)?))
}

/// With the alternatives of a select up to its decision.
fn decision(alts: &[Alt], env: Env, from: Reached) -> Result<Reached, CountFault>
    ensures count { IfOk result (λ r. r.count ≡ from.count + (sizes.alternatives_size env.entry.scopes.now (env_view env.entry) (alts_view alts.now) + 1)) }
    ensures next { IfOk result (λ r. r.next ≡ from.next) }
    ensures large { IfErr result (λ f. f ≡ TooLarge →
        200000 < from.count + (sizes.alternatives_size env.entry.scopes.now (env_view env.entry) (alts_view alts.now) + 1)) }
{
    Ok(from.at(one(alternatives(alts, env, from.count)?)?))
}

/// With statements.
#[cycle(stmts)]
pub(crate) fn stmts(ss: &[Stmt], env: Env, from: Reached) -> Result<Reached, CountFault>
    ensures count { IfOk result (λ r. r.count ≡ from.count + sizes.stmts_size env.entry.scopes.now (env_view env.entry) from.next (stmts_view ss.now)) }
    ensures next { IfOk result (λ r. r.next ≡ from.next + rules.stmts_scopes (stmts_view ss.now)) }
    ensures large { IfErr result (λ f. f ≡ TooLarge →
        200000 < from.count + sizes.stmts_size env.entry.scopes.now (env_view env.entry) from.next (stmts_view ss.now)) }
{
    let mut reached = from;
    for s in ss {
        reached = stmt(s, env, reached)?;
    }
    Ok(reached)
}

/// With the arms of a `case`, each with the jump behind it.
#[cycle(stmts)]
fn arms(all: &[CaseArm], env: Env, from: Reached) -> Result<Reached, CountFault>
    ensures count { IfOk result (λ r. r.count ≡ from.count + sizes.arms_size env.entry.scopes.now (env_view env.entry) from.next (arms_view all.now)) }
    ensures next { IfOk result (λ r. r.next ≡ from.next + rules.arms_scopes (arms_view all.now)) }
    ensures large { IfErr result (λ f. f ≡ TooLarge →
        200000 < from.count + sizes.arms_size env.entry.scopes.now (env_view env.entry) from.next (arms_view all.now)) }
{
    let mut reached = from;
    for a in all {
        reached = jump(stmt(&a.stmt, env, reached)?)?;
    }
    Ok(reached)
}

/// With the statement of an accept. Its parameters are the next scope.
#[cycle(stmts)]
fn accept(a: &Accept, env: Env, from: Reached) -> Result<Reached, CountFault>
    ensures count { IfOk result (λ r. r.count ≡ from.count + sizes.accepted_size env.entry.scopes.now (env_view env.entry) from.next (accept_view a.now)) }
    ensures next { IfOk result (λ r. r.next ≡ from.next + rules.accept_scopes (accept_view a.now)) }
    ensures large { IfErr result (λ f. f ≡ TooLarge →
        200000 < from.count + sizes.accepted_size env.entry.scopes.now (env_view env.entry) from.next (accept_view a.now)) }
{
    let inner = Reached {
        count: from.count,
        next: following(from.next)?,
    };
    match &a.stmt {
        Some(s) => {
            let view = View {
                scope: from.next,
                count: names_in(env.scopes, from.next),
                outer: Some(env.view),
            };
            accepted(s, &view, env, inner)
        }
        None => Ok(inner),
    }
}

/// With the statement of an accept, in which these names are in view.
#[cycle(stmts)]
fn accepted<'a>(
    s: &Stmt,
    view: &'a View<'a>,
    env: Env<'a>,
    from: Reached,
) -> Result<Reached, CountFault>
    ensures count { IfOk result (λ r. r.count ≡ from.count + sizes.stmt_size env.entry.scopes.now (record (env_view env.entry) {
      view =
          levels view.now;
    }) from.next (stmt_view s.now)) }
    ensures next { IfOk result (λ r. r.next ≡ from.next + rules.scopes_in (stmt_view s.now)) }
    ensures large { IfErr result (λ f. f ≡ TooLarge → 200000 < from.count + sizes.stmt_size env.entry.scopes.now (record (env_view env.entry) {
      view =
          levels view.now;
    }) from.next (stmt_view s.now)) }
{
    stmt(s, Env { view, ..env }, from)
}

/// With the branches of the alternatives of a select.
#[cycle(stmts)]
fn branches(alts: &[Alt], env: Env, from: Reached) -> Result<Reached, CountFault>
    ensures count { IfOk result (λ r. r.count ≡ from.count + sizes.branches_size env.entry.scopes.now (env_view env.entry) from.next (alts_view alts.now)) }
    ensures next { IfOk result (λ r. r.next ≡ from.next + rules.alts_scopes (alts_view alts.now)) }
    ensures large { IfErr result (λ f. f ≡ TooLarge →
        200000 < from.count + sizes.branches_size env.entry.scopes.now (env_view env.entry) from.next (alts_view alts.now)) }
{
    let mut reached = from;
    for a in alts {
        reached = branch(a, env, reached)?;
    }
    Ok(reached)
}

/// With the branch of an alternative and the jump behind it; statements behind `terminate` have no code.
#[cycle(stmts)]
fn branch(a: &Alt, env: Env, from: Reached) -> Result<Reached, CountFault>
    ensures count { IfOk result (λ r. r.count ≡ from.count + sizes.branch_size env.entry.scopes.now (env_view env.entry) from.next (alt_view a.now)) }
    ensures next { IfOk result (λ r. r.next ≡ from.next + rules.alt_scopes (alt_view a.now)) }
    ensures large { IfErr result (λ f. f ≡ TooLarge →
        200000 < from.count + sizes.branch_size env.entry.scopes.now (env_view env.entry) from.next (alt_view a.now)) }
{
    if is_terminate(&a.comm) {
        return Ok(Reached {
            count: from.count,
            next: behind_stmts(&a.rest, behind_comm(&a.comm, from.next)?)?,
        });
    }
    let count = chosen(&a.spread, env, from.count)?;
    jump(stmts(&a.rest, env, met(&a.comm, env, from.at(count))?)?)
}

/// Whether an alternative is `terminate`.
fn is_terminate(comm: &Comm) -> bool
    ensures { result ≡ sizes.is_terminate (comm_view comm.now) }
{
    match comm {
        Comm::Terminate(_) => true,
        Comm::Accept(_, _) => false,
        Comm::Send(_, _, _) => false,
        Comm::Receive(_, _, _) => false,
        Comm::Timeout(_, _) => false,
    }
}

/// With the statement of an alternative's accept and the end of the meeting.
#[cycle(stmts)]
fn met(comm: &Comm, env: Env, from: Reached) -> Result<Reached, CountFault>
    ensures count { IfOk result (λ r. r.count ≡ from.count + sizes.met_size env.entry.scopes.now (env_view env.entry) from.next (comm_view comm.now)) }
    ensures next { IfOk result (λ r. r.next ≡ from.next + rules.comm_scopes (comm_view comm.now)) }
    ensures large { IfErr result (λ f. f ≡ TooLarge →
        200000 < from.count + sizes.met_size env.entry.scopes.now (env_view env.entry) from.next (comm_view comm.now)) }
{
    match comm {
        Comm::Accept(a, _) => jump(accept(a, env, from)?),
        Comm::Send(_, _, _) | Comm::Receive(_, _, _) | Comm::Timeout(_, _) | Comm::Terminate(_) =>
            Ok(from),
    }
}
