//! The walk over statements: their broken rules are found in the order of their parts, and the accepts are counted, each
//! of which has a scope of its own.
ghost use Rattle.std.specs.Prelude.{◌≡◌, ◌+◌, ◌<◌, ◌^◌};
ghost use Rattle.pfc_tree.specs.views.Stmts.{stmt_view, stmts_view, body_view, arms_view, accept_view, alts_view, alt_view, comm_view};
ghost use Rattle.pfc_types.specs.Views.{levels};
ghost use Rattle.pfc_types.specs.rules.Statements as rules;
ghost use Rattle.pfc_phrases.specs.Found.{noted};
ghost use Rattle.pfc_phrases.specs.Views.{env_view};

use crate::assignments::assign;
use crate::communication::{receive, send};
use crate::heads::{accept_head, condition, for_head, labels, requeued, seconds};
use crate::passing::names_in;
use crate::selects::select_head;
use crate::spreads::spread_head;
use pfc_base::Place;
use pfc_phrases::{Best, Env, call, expr};
use pfc_tree::{Accept, Alt, Body, CaseArm, Comm, Stmt};
use pfc_types::{Around, TypeId, View};

/// Between `cobegin` and `coend`.
fn within_cobegin(env: Env) -> Env
    ensures { env_view result ≡ rules.within_cobegin (env_view env.entry) }
{
    Env {
        around: Around {
            cobegin: true,
            ..env.around
        },
        ..env
    }
}

/// The rules of a statement. `next` is the number of the next scope of the text; gives that behind the statement.
#[cycle(stmts)]
fn stmt(s: &Stmt, next: u32, env: Env, best: &mut Best) -> u32
    requires { next + rules.scopes_in (stmt_view s.now) < 2 ^ 32 }
    ensures next { result ≡ next + rules.scopes_in (stmt_view s.now) }
    ensures best { best.new ≡ noted best.old (rules.broken_stmt (env_view env.entry) next (stmt_view s.now)) }
{
    match s {
        Stmt::Empty | Stmt::Null(_) => next,
        Stmt::Block(body, _) => stmts(&body.stmts, next, env, best),
        Stmt::If(e, then, other, _) => {
            condition(e, env, best);
            let next = stmt(then, next, env, best);
            match other {
                Some(other) => stmt(other, next, env, best),
                None => next,
            }
        }
        Stmt::Case(e, all, _, _) => {
            let t = expr(e, env, best);
            arms(all, t, next, env, best)
        }
        Stmt::While(e, repeated, _) => {
            condition(e, env, best);
            stmt(repeated, next, env, best)
        }
        Stmt::Repeat(ss, until, _) => {
            let next = stmts(ss, next, env, best);
            if let Some(e) = until {
                condition(e, env, best);
            }
            next
        }
        Stmt::For(x, from, _, to, repeated, _, place) => {
            for_head(x, from, to, *place, env, best);
            stmt(repeated, next, env, best)
        }
        Stmt::Cobegin(ss, _, place) => {
            best.unless(env.around.main && !env.around.cobegin, *place, 401);
            stmts(ss, next, within_cobegin(env), best)
        }
        Stmt::Accept(a, place) => accept(a, *place, next, env, best),
        Stmt::Requeue(x, args, place) => {
            requeued(x, args, *place, env, best);
            next
        }
        Stmt::Select(_, all, other, _, place) => {
            let way = select_head(all, *place, env, best);
            let next = alts(all, next, env, best);
            match other {
                Some((ss, place)) => {
                    best.unless(!way, *place, 417);
                    stmts(ss, next, env, best)
                }
                None => next,
            }
        }
        Stmt::Assign(d, e, _, place) => {
            assign(d, e, *place, env, best);
            next
        }
        Stmt::Send(d, e, _, place) => {
            send(d, e, *place, env, best);
            next
        }
        Stmt::Receive(d, v, _, place) => {
            receive(d, v, *place, env, best);
            next
        }
        Stmt::Call(d, args, _) => {
            call(d, args, env, best);
            next
        }
    }
}

#[cycle(stmts)]
fn stmts(ss: &[Stmt], next: u32, env: Env, best: &mut Best) -> u32
    requires { next + rules.stmts_scopes (stmts_view ss.now) < 2 ^ 32 }
    ensures next { result ≡ next + rules.stmts_scopes (stmts_view ss.now) }
    ensures best { best.new ≡ noted best.old (rules.broken_stmts (env_view env.entry) next (stmts_view ss.now)) }
{
    let mut after = next;
    for s in ss {
        after = stmt(s, after, env, best);
    }
    after
}

/// The arms of a `case` over values of type t.
#[cycle(stmts)]
fn arms(all: &[CaseArm], t: Option<TypeId>, next: u32, env: Env, best: &mut Best) -> u32
    requires { next + rules.arms_scopes (arms_view all.now) < 2 ^ 32 }
    ensures next { result ≡ next + rules.arms_scopes (arms_view all.now) }
    ensures best { best.new ≡ noted best.old (rules.broken_arms (env_view env.entry) next t (arms_view all.now)) }
{
    let mut after = next;
    for a in all {
        labels(&a.labels, t, env, best);
        after = stmt(&a.stmt, after, env, best);
    }
    after
}

/// What stands behind `accept`, whose place is given. Its parameters are the next scope.
#[cycle(stmts)]
fn accept(a: &Accept, place: Place, next: u32, env: Env, best: &mut Best) -> u32
    requires { next + rules.accept_scopes (accept_view a.now) < 2 ^ 32 }
    ensures next { result ≡ next + rules.accept_scopes (accept_view a.now) }
    ensures best { best.new ≡ noted best.old (rules.broken_accept (env_view env.entry) next (accept_view a.now) place) }
{
    accept_head(&a.name, a.place, place, env, best);
    match &a.stmt {
        Some(s) => {
            let view = View {
                scope: next,
                count: names_in(env.scopes, next),
                outer: Some(env.view),
            };
            accepted(s, &view, next + 1, env, best)
        }
        None => next + 1,
    }
}

/// The statement of an accept, in which these names are in view.
#[cycle(stmts)]
fn accepted<'a>(s: &Stmt, view: &'a View<'a>, next: u32, env: Env<'a>, best: &mut Best) -> u32
    requires { next + rules.scopes_in (stmt_view s.now) < 2 ^ 32 }
    ensures next { result ≡ next + rules.scopes_in (stmt_view s.now) }
    ensures best { best.new ≡ noted best.old (rules.broken_stmt (record (env_view env.entry) { view = levels view.now }) next (stmt_view s.now)) }
{
    stmt(s, next, Env { view, ..env }, best)
}

#[cycle(stmts)]
fn alts(all: &[Alt], next: u32, env: Env, best: &mut Best) -> u32
    requires { next + rules.alts_scopes (alts_view all.now) < 2 ^ 32 }
    ensures next { result ≡ next + rules.alts_scopes (alts_view all.now) }
    ensures best { best.new ≡ noted best.old (rules.broken_alts (env_view env.entry) next (alts_view all.now)) }
{
    let mut after = next;
    for a in all {
        after = alt(a, after, env, best);
    }
    after
}

#[cycle(stmts)]
fn alt(a: &Alt, next: u32, env: Env, best: &mut Best) -> u32
    requires { next + rules.alt_scopes (alt_view a.now) < 2 ^ 32 }
    ensures next { result ≡ next + rules.alt_scopes (alt_view a.now) }
    ensures best { best.new ≡ noted best.old (rules.broken_alt (env_view env.entry) next (alt_view a.now)) }
{
    spread_head(&a.spread, env, best);
    if let Some(e) = &a.guard {
        condition(e, env, best);
    }
    let next = comm(&a.comm, next, env, best);
    stmts(&a.rest, next, env, best)
}

#[cycle(stmts)]
fn comm(c: &Comm, next: u32, env: Env, best: &mut Best) -> u32
    requires { next + rules.comm_scopes (comm_view c.now) < 2 ^ 32 }
    ensures next { result ≡ next + rules.comm_scopes (comm_view c.now) }
    ensures best { best.new ≡ noted best.old (rules.broken_comm (env_view env.entry) next (comm_view c.now)) }
{
    match c {
        Comm::Accept(a, place) => accept(a, *place, next, env, best),
        Comm::Send(d, e, place) => {
            send(d, e, *place, env, best);
            next
        }
        Comm::Receive(d, v, place) => {
            receive(d, v, *place, env, best);
            next
        }
        Comm::Timeout(e, _) => {
            seconds(e, env, best);
            next
        }
        Comm::Terminate(place) => {
            best.unless(env.around.process, *place, 421);
            next
        }
    }
}

/// The rules of a body.
pub(crate) fn body(b: &Body, next: u32, env: Env, best: &mut Best) -> u32
    requires { next + rules.body_scopes (body_view b.now) < 2 ^ 32 }
    ensures next { result ≡ next + rules.body_scopes (body_view b.now) }
    ensures best { best.new ≡ noted best.old (rules.broken_body (env_view env.entry) next (body_view b.now)) }
{
    stmts(&b.stmts, next, env, best)
}
