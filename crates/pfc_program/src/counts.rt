//! Counting scopes: each block and each accept has one, numbered in the order of the text.
//!
//! Each function is given the number of the next scope of the text and gives that behind a phrase. Its only refusal is a number of
//! more than 32 bits, which no checked tree reaches; it is want of memory, as a full list is.
ghost use Rattle.std.specs.Prelude.{◌≡◌, ◌+◌, ◌≤◌, ◌^◌, IfOk, OnErr};
ghost use Rattle.pfc_tree.specs.views.Stmts.{stmt_view, stmts_view, body_view, arms_view, accept_view, alts_view, alt_view, comm_view};
ghost use Rattle.pfc_tree.specs.views.Parts.{part_view, parts_view, sub_view, module_view, process_view};
ghost use Rattle.pfc_types.specs.rules.Statements as rules;
ghost use Rattle.pfc_types.specs.rules.Bodies as bodies;

use pfc_base::Memory;
use pfc_tree::{Accept, Alt, Body, CaseArm, Comm, Module, Part, Process, Stmt, Sub};

/// The number behind one.
pub(crate) fn following(next: u32) -> Result<u32, Memory>
    ensures value { IfOk result (λ n. n ≡ next + 1) }
    ensures full { OnErr result (2 ^ 32 ≤ next + 1) }
{
    match next.checked_add(1) {
        Some(n) => Ok(n),
        None => Err(Memory),
    }
}

/// Behind a statement.
#[cycle(stmts)]
pub fn behind_stmt(s: &Stmt, next: u32) -> Result<u32, Memory>
    ensures value { IfOk result (λ n. n ≡ next + rules.scopes_in (stmt_view s.now)) }
    ensures full { OnErr result (2 ^ 32 ≤ next + rules.scopes_in (stmt_view s.now)) }
{
    match s {
        Stmt::Empty
        | Stmt::Null(_)
        | Stmt::Requeue(_, _, _)
        | Stmt::Assign(_, _, _, _)
        | Stmt::Send(_, _, _, _)
        | Stmt::Receive(_, _, _, _)
        | Stmt::Call(_, _, _) => Ok(next),
        Stmt::Block(body, _) => behind_stmts(&body.stmts, next),
        Stmt::If(_, then, other, _) => {
            let next = behind_stmt(then, next)?;
            match other {
                Some(other) => behind_stmt(other, next),
                None => Ok(next),
            }
        }
        Stmt::Case(_, arms, _, _) => behind_arms(arms, next),
        Stmt::While(_, repeated, _) => behind_stmt(repeated, next),
        Stmt::Repeat(ss, _, _) => behind_stmts(ss, next),
        Stmt::For(_, _, _, _, repeated, _, _) => behind_stmt(repeated, next),
        Stmt::Cobegin(ss, _, _) => behind_stmts(ss, next),
        Stmt::Accept(a, _) => behind_accept(a, next),
        Stmt::Select(_, alts, other, _, _) => {
            let next = behind_alts(alts, next)?;
            match other {
                Some((ss, _)) => behind_stmts(ss, next),
                None => Ok(next),
            }
        }
    }
}

/// Behind a list of statements.
#[cycle(stmts)]
pub fn behind_stmts(ss: &[Stmt], next: u32) -> Result<u32, Memory>
    ensures value { IfOk result (λ n. n ≡ next + rules.stmts_scopes (stmts_view ss.now)) }
    ensures full { OnErr result (2 ^ 32 ≤ next + rules.stmts_scopes (stmts_view ss.now)) }
{
    let mut after = next;
    for s in ss {
        after = behind_stmt(s, after)?;
    }
    Ok(after)
}

/// Behind the arms of a `case`.
#[cycle(stmts)]
pub fn behind_arms(arms: &[CaseArm], next: u32) -> Result<u32, Memory>
    ensures value { IfOk result (λ n. n ≡ next + rules.arms_scopes (arms_view arms.now)) }
    ensures full { OnErr result (2 ^ 32 ≤ next + rules.arms_scopes (arms_view arms.now)) }
{
    let mut after = next;
    for a in arms {
        after = behind_stmt(&a.stmt, after)?;
    }
    Ok(after)
}

/// Behind an accept, whose parameters are the next scope.
#[cycle(stmts)]
pub fn behind_accept(a: &Accept, next: u32) -> Result<u32, Memory>
    ensures value { IfOk result (λ n. n ≡ next + rules.accept_scopes (accept_view a.now)) }
    ensures full { OnErr result (2 ^ 32 ≤ next + rules.accept_scopes (accept_view a.now)) }
{
    let inner = following(next)?;
    match &a.stmt {
        Some(s) => behind_stmt(s, inner),
        None => Ok(inner),
    }
}

/// Behind the alternatives of a `select`.
#[cycle(stmts)]
pub fn behind_alts(alts: &[Alt], next: u32) -> Result<u32, Memory>
    ensures value { IfOk result (λ n. n ≡ next + rules.alts_scopes (alts_view alts.now)) }
    ensures full { OnErr result (2 ^ 32 ≤ next + rules.alts_scopes (alts_view alts.now)) }
{
    let mut after = next;
    for a in alts {
        after = behind_alt(a, after)?;
    }
    Ok(after)
}

/// Behind an alternative.
#[cycle(stmts)]
pub fn behind_alt(a: &Alt, next: u32) -> Result<u32, Memory>
    ensures value { IfOk result (λ n. n ≡ next + rules.alt_scopes (alt_view a.now)) }
    ensures full { OnErr result (2 ^ 32 ≤ next + rules.alt_scopes (alt_view a.now)) }
{
    let inner = behind_comm(&a.comm, next)?;
    behind_stmts(&a.rest, inner)
}

/// Behind what an alternative waits for, where its statements begin.
#[cycle(stmts)]
pub fn behind_comm(c: &Comm, next: u32) -> Result<u32, Memory>
    ensures value { IfOk result (λ n. n ≡ next + rules.comm_scopes (comm_view c.now)) }
    ensures full { OnErr result (2 ^ 32 ≤ next + rules.comm_scopes (comm_view c.now)) }
{
    match c {
        Comm::Accept(a, _) => behind_accept(a, next),
        Comm::Send(_, _, _) | Comm::Receive(_, _, _) | Comm::Timeout(_, _) | Comm::Terminate(_) =>
            Ok(next),
    }
}

/// Behind a body.
pub fn behind_body(b: &Body, next: u32) -> Result<u32, Memory>
    ensures value { IfOk result (λ n. n ≡ next + rules.body_scopes (body_view b.now)) }
    ensures full { OnErr result (2 ^ 32 ≤ next + rules.body_scopes (body_view b.now)) }
{
    behind_stmts(&b.stmts, next)
}

/// Behind a part.
#[cycle(parts)]
pub(crate) fn behind_part(p: &Part, next: u32) -> Result<u32, Memory>
    ensures value { IfOk result (λ n. n ≡ next + bodies.part_scopes (part_view p.now)) }
    ensures full { OnErr result (2 ^ 32 ≤ next + bodies.part_scopes (part_view p.now)) }
{
    match p {
        Part::Consts(_) | Part::Types(_) | Part::Vars(_) => Ok(next),
        Part::Sub(b) => behind_sub(b, next),
        Part::Monitor(m) => behind_module(m, next),
        Part::Resource(m) => behind_module(m, next),
        Part::Process(q) => behind_process(q, next),
    }
}

/// Behind the parts of a block.
#[cycle(parts)]
pub(crate) fn behind_parts(ps: &[Part], next: u32) -> Result<u32, Memory>
    ensures value { IfOk result (λ n. n ≡ next + bodies.parts_scopes (parts_view ps.now)) }
    ensures full { OnErr result (2 ^ 32 ≤ next + bodies.parts_scopes (parts_view ps.now)) }
{
    let mut after = next;
    for p in ps {
        after = behind_part(p, after)?;
    }
    Ok(after)
}

/// Behind a sub.
#[cycle(parts)]
fn behind_sub(b: &Sub, next: u32) -> Result<u32, Memory>
    ensures value { IfOk result (λ n. n ≡ next + bodies.sub_scopes (sub_view b.now)) }
    ensures full { OnErr result (2 ^ 32 ≤ next + bodies.sub_scopes (sub_view b.now)) }
{
    let inner = behind_parts(&b.parts, following(next)?)?;
    behind_body(&b.body, inner)
}

/// Behind a monitor or a resource.
#[cycle(parts)]
fn behind_module(m: &Module, next: u32) -> Result<u32, Memory>
    ensures value { IfOk result (λ n. n ≡ next + bodies.module_scopes (module_view m.now)) }
    ensures full { OnErr result (2 ^ 32 ≤ next + bodies.module_scopes (module_view m.now)) }
{
    let inner = behind_parts(&m.parts, following(next)?)?;
    match &m.body {
        Some(b) => behind_body(b, inner),
        None => Ok(inner),
    }
}

/// Behind a process.
#[cycle(parts)]
fn behind_process(q: &Process, next: u32) -> Result<u32, Memory>
    ensures value { IfOk result (λ n. n ≡ next + bodies.process_scopes (process_view q.now)) }
    ensures full { OnErr result (2 ^ 32 ≤ next + bodies.process_scopes (process_view q.now)) }
{
    let inner = behind_parts(&q.parts, following(next)?)?;
    behind_body(&q.body, inner)
}
