//! The scopes of accepts, which are numbered in the order of the text.
ghost use Rattle.std.specs.Prelude.{◌≡◌, ◌+◌, ◌<◌, ◌^◌};
ghost use Rattle.pfc_tree.specs.views.Stmts.{stmt_view, stmts_view, arms_view, accept_view, alts_view, alt_view, comm_view};
ghost use Rattle.pfc_types.specs.rules.Statements as rules;

use pfc_tree::{Accept, Alt, CaseArm, Comm, Stmt};

/// The number of the next scope of the text behind a statement, before which it is `next`.
#[cycle(counts)]
pub fn behind_stmt(s: &Stmt, next: u32) -> u32
    requires { next + rules.scopes_in (stmt_view s.now) < 2 ^ 32 }
    ensures { result ≡ next + rules.scopes_in (stmt_view s.now) }
{
    match s {
        Stmt::Empty
        | Stmt::Null(_)
        | Stmt::Requeue(_, _, _)
        | Stmt::Assign(_, _, _, _)
        | Stmt::Send(_, _, _, _)
        | Stmt::Receive(_, _, _, _)
        | Stmt::Call(_, _, _) => next,
        Stmt::Block(body, _) => behind_stmts(&body.stmts, next),
        Stmt::If(_, then, other, _) => {
            let next = behind_stmt(then, next);
            match other {
                Some(other) => behind_stmt(other, next),
                None => next,
            }
        }
        Stmt::Case(_, arms, _, _) => behind_arms(arms, next),
        Stmt::While(_, repeated, _) | Stmt::For(_, _, _, _, repeated, _, _) => behind_stmt(
            repeated, next,
        ),
        Stmt::Repeat(ss, _, _) | Stmt::Cobegin(ss, _, _) => behind_stmts(ss, next),
        Stmt::Accept(a, _) => behind_accept(a, next),
        Stmt::Select(_, alts, other, _, _) => {
            let next = behind_alts(alts, next);
            match other {
                Some((ss, _)) => behind_stmts(ss, next),
                None => next,
            }
        }
    }
}

/// The number of the next scope of the text behind statements, before which it is `next`.
#[cycle(counts)]
pub fn behind_stmts(ss: &[Stmt], next: u32) -> u32
    requires { next + rules.stmts_scopes (stmts_view ss.now) < 2 ^ 32 }
    ensures { result ≡ next + rules.stmts_scopes (stmts_view ss.now) }
{
    let mut after = next;
    for s in ss {
        after = behind_stmt(s, after);
    }
    after
}

#[cycle(counts)]
fn behind_arms(arms: &[CaseArm], next: u32) -> u32
    requires { next + rules.arms_scopes (arms_view arms.now) < 2 ^ 32 }
    ensures { result ≡ next + rules.arms_scopes (arms_view arms.now) }
{
    let mut after = next;
    for a in arms {
        after = behind_stmt(&a.stmt, after);
    }
    after
}

/// The number of the next scope of the text behind what stands behind `accept`. The scope of its own parameters is `next`.
#[cycle(counts)]
pub fn behind_accept(a: &Accept, next: u32) -> u32
    requires { next + rules.accept_scopes (accept_view a.now) < 2 ^ 32 }
    ensures { result ≡ next + rules.accept_scopes (accept_view a.now) }
{
    match &a.stmt {
        Some(s) => behind_stmt(s, next + 1),
        None => next + 1,
    }
}

/// The number of the next scope of the text behind alternatives, before which it is `next`.
#[cycle(counts)]
pub fn behind_alts(alts: &[Alt], next: u32) -> u32
    requires { next + rules.alts_scopes (alts_view alts.now) < 2 ^ 32 }
    ensures { result ≡ next + rules.alts_scopes (alts_view alts.now) }
{
    let mut after = next;
    for a in alts {
        let behind = behind_comm(&a.comm, after);
        after = behind_stmts(&a.rest, behind);
    }
    after
}

/// The number of the next scope of the text behind what an alternative communicates, before which it is `next`.
#[cycle(counts)]
pub fn behind_comm(c: &Comm, next: u32) -> u32
    requires { next + rules.comm_scopes (comm_view c.now) < 2 ^ 32 }
    ensures { result ≡ next + rules.comm_scopes (comm_view c.now) }
{
    match c {
        Comm::Accept(a, _) => behind_accept(a, next),
        Comm::Send(_, _, _) | Comm::Receive(_, _, _) | Comm::Timeout(_, _) | Comm::Terminate(_) =>
            next,
    }
}
