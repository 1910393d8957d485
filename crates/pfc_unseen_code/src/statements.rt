//! The walk over statements.
ghost use Rattle.std.specs.Prelude.{◌≡◌, ◌+◌, OnOk, IfOk, IfErr};
ghost use Rattle.pfc_tree.specs.views.Stmts.{stmt_view, stmts_view, arms_view, accept_view, alts_view, alt_view, comm_view};
ghost use Rattle.pfc_types.specs.Views.{levels};
ghost use Rattle.pfc_types.specs.rules.Statements as rules;
ghost use Rattle.pfc_phrases.specs.Views.{env_view};
ghost use Rattle.pfc_translation.specs.Codes.{unseen};
ghost use Rattle.pfc_translation.specs.Statements.{stmts_code};
ghost use Rattle.pfc_emit.specs.declared.emitter.EmitFault.TheVariants.{Memory as NoMemory};
ghost use Rattle.pfc_addresses.specs.Sites.{site_view};
ghost use Rattle.pfc_expression_code.specs.Putting.{IsMade};
ghost use Rattle.pfc_unseen_code.specs.Counts.{with_select};
ghost use Rattle.pfc_unseen_code.specs.Statements.{with_stmt, with_stmts, with_case_arms, with_accepted, with_met, with_branch, with_branches};

use crate::calls::call;
use crate::counts::{count, following};
use pfc_addresses::Site;
use pfc_emit::EmitFault;
use pfc_expression_code::Coder;
use pfc_phrases::Env;
use pfc_rules::passing::names_in;
use pfc_tree::{Accept, Alt, CaseArm, Comm, Stmt};
use pfc_types::View;

/// Keeps the strings of statements that give no code, and counts the alternatives of their selects. Before them the next scope of the text
/// has the number `next`, from 0; gives that behind them. Its only refusal is want of memory; a number of more than 32 bits, which no
/// checked tree reaches, counts as that too.
pub fn keep_unseen(ss: &[Stmt], site: Site, next: u32, code: &mut Coder) -> Result<u32, EmitFault>
    ensures code { OnOk result (IsMade (unseen (stmts_code (site_view site.entry) next (stmts_view ss.now))) code.old code.new) }
    ensures next { IfOk result (λ n. n ≡ next + rules.stmts_scopes (stmts_view ss.now)) }
    ensures fault { IfErr result (λ fault. fault ≡ NoMemory) }
{
    stmts(ss, site.env(), next, code)
}

/// Statements.
#[cycle(stmts)]
fn stmts(ss: &[Stmt], env: Env, next: u32, code: &mut Coder) -> Result<u32, EmitFault>
    ensures code { OnOk result (code.new ≡ with_stmts (env_view env.entry) next (stmts_view ss.now) code.old) }
    ensures next { IfOk result (λ n. n ≡ next + rules.stmts_scopes (stmts_view ss.now)) }
    ensures fault { IfErr result (λ fault. fault ≡ NoMemory) }
{
    let mut after = next;
    for s in ss {
        after = stmt(s, env, after, code)?;
    }
    Ok(after)
}

/// A statement.
#[cycle(stmts)]
fn stmt(s: &Stmt, env: Env, next: u32, code: &mut Coder) -> Result<u32, EmitFault>
    ensures code { OnOk result (code.new ≡ with_stmt (env_view env.entry) next (stmt_view s.now) code.old) }
    ensures next { IfOk result (λ n. n ≡ next + rules.scopes_in (stmt_view s.now)) }
    ensures fault { IfErr result (λ fault. fault ≡ NoMemory) }
{
    match s {
        Stmt::Empty
        | Stmt::Null(_)
        | Stmt::Requeue(_, _, _)
        | Stmt::Assign(_, _, _, _)
        | Stmt::Send(_, _, _, _)
        | Stmt::Receive(_, _, _, _) => Ok(next),
        Stmt::Block(body, _) => stmts(&body.stmts, env, next, code),
        Stmt::If(_, then, other, _) => {
            let next = stmt(then, env, next, code)?;
            match other {
                Some(other) => stmt(other, env, next, code),
                None => Ok(next),
            }
        }
        Stmt::Case(_, all, _, _) => arms(all, env, next, code),
        Stmt::While(_, repeated, _) | Stmt::For(_, _, _, _, repeated, _, _) => stmt(
            repeated, env, next, code,
        ),
        Stmt::Repeat(ss, _, _) | Stmt::Cobegin(ss, _, _) => stmts(ss, env, next, code),
        Stmt::Accept(a, _) => accepted(a, env, next, code),
        Stmt::Select(_, alts, other, _, _) => {
            let next = select(alts, env, next, code)?;
            match other {
                Some((ss, _)) => stmts(ss, env, next, code),
                None => Ok(next),
            }
        }
        Stmt::Call(d, args, _) => {
            call(d, args, env, code)?;
            Ok(next)
        }
    }
}

/// The arms of a `case`.
#[cycle(stmts)]
fn arms(all: &[CaseArm], env: Env, next: u32, code: &mut Coder) -> Result<u32, EmitFault>
    ensures code { OnOk result (code.new ≡ with_case_arms (env_view env.entry) next (arms_view all.now) code.old) }
    ensures next { IfOk result (λ n. n ≡ next + rules.arms_scopes (arms_view all.now)) }
    ensures fault { IfErr result (λ fault. fault ≡ NoMemory) }
{
    let mut after = next;
    for a in all {
        after = stmt(&a.stmt, env, after, code)?;
    }
    Ok(after)
}

/// The statement of an accept, whose parameters are the next scope.
#[cycle(stmts)]
fn accepted(a: &Accept, env: Env, next: u32, code: &mut Coder) -> Result<u32, EmitFault>
    ensures code { OnOk result (code.new ≡ with_accepted (env_view env.entry) next (accept_view a.now) code.old) }
    ensures next { IfOk result (λ n. n ≡ next + rules.accept_scopes (accept_view a.now)) }
    ensures fault { IfErr result (λ fault. fault ≡ NoMemory) }
{
    let inner = following(next)?;
    match &a.stmt {
        Some(s) => {
            let view = View {
                scope: next,
                count: names_in(env.scopes, next),
                outer: Some(env.view),
            };
            within(s, &view, env, inner, code)
        }
        None => Ok(inner),
    }
}

/// A statement, where these names are in view.
#[cycle(stmts)]
fn within<'a>(
    s: &Stmt,
    view: &'a View<'a>,
    env: Env<'a>,
    next: u32,
    code: &mut Coder,
) -> Result<u32, EmitFault>
    ensures code { OnOk result (code.new ≡ with_stmt (record (env_view env.entry) { view = levels view.now }) next (stmt_view s.now) code.old) }
    ensures next { IfOk result (λ n. n ≡ next + rules.scopes_in (stmt_view s.now)) }
    ensures fault { IfErr result (λ fault. fault ≡ NoMemory) }
{
    stmt(s, Env { view, ..env }, next, code)
}

/// The alternatives of a select, which are counted, and their branches.
#[cycle(stmts)]
fn select(alts: &[Alt], env: Env, next: u32, code: &mut Coder) -> Result<u32, EmitFault>
    ensures code { OnOk result (code.new ≡ with_branches (env_view env.entry) next (alts_view alts.now)
        (with_select (env_view env.entry) (alts_view alts.now) code.old)) }
    ensures next { IfOk result (λ n. n ≡ next + rules.alts_scopes (alts_view alts.now)) }
    ensures fault { IfErr result (λ fault. fault ≡ NoMemory) }
{
    code.count_alternatives(count(alts, env)?);
    branches(alts, env, next, code)
}

/// The branches of a select.
#[cycle(stmts)]
fn branches(alts: &[Alt], env: Env, next: u32, code: &mut Coder) -> Result<u32, EmitFault>
    ensures code { OnOk result (code.new ≡ with_branches (env_view env.entry) next (alts_view alts.now) code.old) }
    ensures next { IfOk result (λ n. n ≡ next + rules.alts_scopes (alts_view alts.now)) }
    ensures fault { IfErr result (λ fault. fault ≡ NoMemory) }
{
    let mut after = next;
    for a in alts {
        after = branch(a, env, after, code)?;
    }
    Ok(after)
}

/// A branch.
#[cycle(stmts)]
fn branch(a: &Alt, env: Env, next: u32, code: &mut Coder) -> Result<u32, EmitFault>
    ensures code { OnOk result (code.new ≡ with_branch (env_view env.entry) next (alt_view a.now) code.old) }
    ensures next { IfOk result (λ n. n ≡ next + rules.alt_scopes (alt_view a.now)) }
    ensures fault { IfErr result (λ fault. fault ≡ NoMemory) }
{
    let inner = met(&a.comm, env, next, code)?;
    stmts(&a.rest, env, inner, code)
}

/// The statement of an alternative's accept.
#[cycle(stmts)]
fn met(comm: &Comm, env: Env, next: u32, code: &mut Coder) -> Result<u32, EmitFault>
    ensures code { OnOk result (code.new ≡ with_met (env_view env.entry) next (comm_view comm.now) code.old) }
    ensures next { IfOk result (λ n. n ≡ next + rules.comm_scopes (comm_view comm.now)) }
    ensures fault { IfErr result (λ fault. fault ≡ NoMemory) }
{
    match comm {
        Comm::Accept(a, _) => accepted(a, env, next, code),
        Comm::Send(_, _, _) | Comm::Receive(_, _, _) | Comm::Timeout(_, _) | Comm::Terminate(_) =>
            Ok(next),
    }
}
