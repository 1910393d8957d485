//! A statement: the step that comes first in it.
ghost use Rattle.std.specs.Prelude.{◌≡◌, ℕ, IfOk};
ghost use Rattle.pfc_base.specs.declared.places.Place.{Place};
ghost use Rattle.pfc_tree.specs.trees.Stmts as trees;
ghost use Rattle.pfc_tree.specs.views.Exprs.{desig_view, expr_view};
ghost use Rattle.pfc_tree.specs.views.Stmts.{stmt_view, stmts_view, alts_view};
ghost use Rattle.pfc_types.specs.rules.Expressions.{Env as Known};
ghost use Rattle.pfc_semantics.specs.Statements.{from_assign, from_stmt};
ghost use Rattle.pfc_semantics.specs.Rewriting.{from_remainder};
ghost use Rattle.pfc_phrases.specs.Views.{env_view};
ghost use Rattle.pfc_program.specs.declared.tables.Tables.{Tables};
ghost use Rattle.pfc_semantics.specs.Alternatives.{context};
ghost use Rattle.pfc_pending.specs.Ahead.{step_ahead};
ghost use Rattle.pfc_pending.specs.Texts.{stmt_at};
ghost use Rattle.pfc_pending.specs.Waiting.{Waiting, remainder_of};
ghost use Rattle.pfc_statement_steps.specs.Begins.{begin_ahead, select_ahead};

use crate::calls::{call, requeue};
use crate::communication::{accept, receive, send};
use crate::lists::{list, node};
use crate::loops::{begin_case, begin_for, begin_if, begin_repeat, begin_while};
use crate::{Begin, Select};
use pfc_base::Memory;
use pfc_pending::{At, Begun, Goal, OneStmt, Otherwise, Pending, Step, Stmts};
use pfc_program::behind_alts;
use pfc_sites::{Site, part};
use pfc_tree::{Alt, Desig, Expr, Stmt};

/// A statement, before which the next scope of the text has the number n. Its only refusal is a number of more than 32 bits, which
/// counts as want of memory.
pub fn stmt<'t>(n: u32, s: OneStmt<'t>, site: Site<'t, '_>) -> Result<Begin<'t>, Memory>
    ensures { IfOk result (λ b. (t : Tables) (w : Waiting) → begin_ahead t (env_view site.entry.env) n w b ≡ from_stmt (env_view site.entry.env) n
        (stmt_at s.entry) (remainder_of w) (from_remainder (env_view site.entry.env) (remainder_of w))) }
{
    match node(s) {
        Some(found) => known(n, s, found, site),
        None => at_line(0, Step::On(At::Rest)),
    }
}

/// A step in a statement with this line.
fn at_line<'t>(line: u32, step: Step<'t>) -> Result<Begin<'t>, Memory>
    ensures { IfOk result (λ b. (t : Tables) (env : Known) (n : ℕ) (w : Waiting) → begin_ahead t env n w b ≡ step_ahead t (context env line) w step.entry) }
{
    Ok(Begin::Step(Begun { line, step }))
}

/// The same of a statement that is looked at.
#[tactic(auto, using(crate::proofs::Rules::kinds))]
fn known<'t>(
    n: u32,
    s: OneStmt<'t>,
    found: &'t Stmt,
    site: Site<'t, '_>,
) -> Result<Begin<'t>, Memory>
    requires { stmt_at s ≡ stmt_view found.now }
    ensures { IfOk result (λ b. (t : Tables) (w : Waiting) → begin_ahead t (env_view site.entry.env) n w b ≡ from_stmt (env_view site.entry.env) n
        (stmt_view found.now) (remainder_of w) (from_remainder (env_view site.entry.env) (remainder_of w))) }
{
    match found {
        Stmt::Empty | Stmt::Null(_) => at_line(0, Step::On(At::Rest)),
        Stmt::Block(body, _) => at_line(0, Step::On(list(n, &body.stmts))),
        Stmt::If(e, _, _, p) => Ok(Begin::Step(begin_if(n, s, e, *p))),
        Stmt::Case(e, _, _, p) => Ok(Begin::Step(begin_case(n, s, e, *p))),
        Stmt::While(e, _, p) => Ok(Begin::Step(begin_while(n, s, e, *p))),
        Stmt::Repeat(ss, test, p) => Ok(Begin::Step(begin_repeat(n, s, ss, test, *p))),
        Stmt::For(x, a, _, _, _, p, _) => Ok(Begin::Step(begin_for(n, s, x, a, *p, site))),
        Stmt::Cobegin(ss, last, _) => {
            at_line(
                last.line,
                Step::Under(Pending::AtCoend(last.line), list(n, ss)),
            )
        }
        Stmt::Accept(a, p) => at_line(p.line, accept(n, a, p.line, site)),
        Stmt::Requeue(x, args, p) => at_line(p.line, requeue(&x.0, args, site)),
        Stmt::Select(pri, alts, None, p, _) => Ok(Begin::Select(plain_select(*pri, alts, p.line))),
        Stmt::Select(pri, alts, Some((ss, _)), p, _) => {
            Ok(Begin::Select(select_else(n, *pri, alts, ss, p.line)?))
        }
        Stmt::Assign(d, e, p, _) => at_line(p.line, assign(d, e, site)),
        Stmt::Send(d, e, p, _) => at_line(p.line, send(d, e, site)),
        Stmt::Receive(d, v, p, _) => at_line(p.line, receive(d, v, site)),
        Stmt::Call(d, args, p) => at_line(p.line, call(d, args, site)),
    }
}

/// `d := e`: the variable before the value. One without selectors is there at once.
#[tactic(auto, using(crate::proofs::Rules::kinds))]
fn assign<'t>(d: &'t Desig, e: &'t Expr, site: Site<'t, '_>) -> Step<'t>
    ensures { (t : Tables) (line : ℕ) (w : Waiting) → step_ahead t (context (env_view site.entry.env) line) w result ≡ from_assign
        (context (env_view site.entry.env) line) (desig_view d.now) (expr_view e.now) (remainder_of w) }
{
    match d.selectors.as_slice() {
        [] => Step::Under(Pending::StoreAt(site.spot(&d.name).spot), At::Expr(e)),
        _ => Step::On(part(d, Goal::AssignTo(e), site)),
    }
}

/// A select without an `else` part.
fn plain_select<'t>(pri: bool, alts: &'t Vec<Alt>, line: u32) -> Select<'t>
    ensures { (env : Known) (n : ℕ) (w : Waiting) (p q : Place) → line ≡ p.line →
        select_ahead env n w result ≡ from_stmt env n (trees.select pri (alts_view alts.now.items) p q) (remainder_of w) (from_remainder env (remainder_of w)) }
{
    Select {
        pri,
        alts,
        otherwise: None,
        line,
    }
}

/// A select with an `else` part, whose scopes stand behind those of the alternatives.
fn select_else<'t>(
    n: u32,
    pri: bool,
    alts: &'t Vec<Alt>,
    list: &'t Vec<Stmt>,
    line: u32,
) -> Result<Select<'t>, Memory>
    ensures { IfOk result (λ select. (env : Known) (w : Waiting) (at p q : Place) → line ≡ p.line →
        select_ahead env n w select ≡ from_stmt env n (trees.select_else pri (alts_view alts.now.items) (stmts_view list.now.items) at p q) (remainder_of w)
        (from_remainder env (remainder_of w))) }
{
    let next = behind_alts(alts, n)?;
    let stmts = Stmts { list, from: 0 };
    Ok(Select {
        pri,
        alts,
        otherwise: Some(Otherwise { next, stmts }),
        line,
    })
}
