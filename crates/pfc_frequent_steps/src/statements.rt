//! Statements: lists of them, assignments to variables as a whole and to elements by one index, tests, and loops without an end.
ghost use Rattle.std.specs.Prelude.{◌≡◌, ℕ, IfSome};
ghost use Rattle.std.specs.Option.{option_copied};
ghost use Rattle.pfc_tree.specs.trees.Stmts as trees;
ghost use Rattle.pfc_tree.specs.views.Exprs.{desig_view, expr_view};
ghost use Rattle.pfc_tree.specs.views.Stmts.{stmt_view, stmts_view};
ghost use Rattle.pfc_types.specs.rules.Expressions.{Env as Known};
ghost use Rattle.pfc_program.specs.declared.tables.Tables.{Tables};
ghost use Rattle.pfc_semantics.specs.Alternatives.{context};
ghost use Rattle.pfc_semantics.specs.Remainders.{Context};
ghost use Rattle.pfc_semantics.specs.Rewriting.{from_remainder};
ghost use Rattle.pfc_semantics.specs.Statements.{from_assign, from_stmt, from_stmts};
ghost use Rattle.pfc_phrases.specs.Views.{env_view};
ghost use Rattle.pfc_pending.specs.Ahead.{ahead};
ghost use Rattle.pfc_pending.specs.Texts.{stmt_at};
ghost use Rattle.pfc_pending.specs.Waiting.{Waiting, remainder_of};
ghost use Rattle.pfc_pending.specs.declared.at_hand.At.TheVariants as at;
ghost use Rattle.pfc_frequent_steps.specs.Near.{entered_ahead, next_ahead, node_view};

use crate::near::{Behind, Entered, Near, Next, Waits};
use crate::tested::{begin_case, begin_if, begin_until, begin_while};
use pfc_base::{Memory, Place};
use pfc_frequent_parts::target;
use pfc_pending::{OneStmt, Stmts};
use pfc_program::behind_stmt;
use pfc_sites::Site;
use pfc_tree::{Desig, Expr, Stmt};

/// A statement of the text, None where there is none.
#[tactic(auto, using(crate::proofs::Left::nodes))]
#[inline(always)]
pub(crate) fn node<'t>(s: OneStmt<'t>) -> Option<&'t Stmt>
    ensures { node_view (option_copied result) ≡ stmt_at s.entry }
{
    match s {
        OneStmt::Listed(list, i) => { if i < list.len() { Some(&list[i]) } else { None } }
        OneStmt::Alone(s) => Some(s),
    }
}

/// The first of some statements, over those behind it. None where a number has more than 32 bits.
#[tactic(auto, using(crate::proofs::Left::stmts))]
#[inline(always)]
pub(crate) fn stmts<'t>(n: u32, ss: Stmts<'t>) -> Option<Next<'t>>
    ensures { IfSome result (λ next. (t : Tables) (c : Context) (w : Waiting) → next_ahead t c w next ≡ ahead t c w (at.Stmts n ss.entry)) }
{
    if ss.list.len() <= ss.from {
        return Some(Next::On(Near::Rest));
    }
    let first = &ss.list[ss.from];
    let here = OneStmt::Listed(ss.list, ss.from);
    let from = ss.from + 1;
    if from == ss.list.len() {
        return Some(Next::On(Near::Stmt(n, here)));
    }
    let behind = Stmts {
        list: ss.list,
        from,
    };
    match behind_stmt(first, n) {
        Ok(next) => Some(Next::Ahead(Behind::Perform(next, behind), Near::Stmt(n, here))),
        Err(Memory) => None,
    }
}

/// A statement, None where it is none of these.
pub(crate) fn stmt<'t>(n: u32, s: OneStmt<'t>, site: Site<'t, '_>) -> Option<Entered<'t>>
    ensures { IfSome result (λ b. (t : Tables) (w : Waiting) → entered_ahead t (env_view site.entry.env) w b
        ≡ from_stmt (env_view site.entry.env) n (stmt_at s.entry) (remainder_of w) (from_remainder (env_view site.entry.env) (remainder_of w))) }
{
    match node(s) {
        Some(found) => known(n, s, found, site),
        None => None,
    }
}

/// The same of a statement that is looked at.
fn known<'t>(n: u32, s: OneStmt<'t>, found: &'t Stmt, site: Site<'t, '_>) -> Option<Entered<'t>>
    requires { stmt_at s ≡ stmt_view found.now }
    ensures { IfSome result (λ b. (t : Tables) (w : Waiting) → entered_ahead t (env_view site.entry.env) w b
        ≡ from_stmt (env_view site.entry.env) n (stmt_view found.now) (remainder_of w) (from_remainder (env_view site.entry.env) (remainder_of w))) }
{
    match found {
        Stmt::Assign(d, e, p, _) => at_line(p.line, assign(d, e, site)?),
        Stmt::Block(body, _) => at_line(0, all(n, &body.stmts)),
        Stmt::Empty | Stmt::Null(_) => at_line(0, Next::On(Near::Rest)),
        Stmt::If(e, _, _, p) => Some(begin_if(n, s, e, *p)),
        Stmt::Case(e, _, _, p) => Some(begin_case(n, s, e, *p)),
        Stmt::While(e, _, p) => Some(begin_while(n, s, e, *p)),
        Stmt::Repeat(ss, Some(e), p) => Some(begin_until(n, s, ss, e, *p)),
        Stmt::Repeat(ss, None, p) => Some(begin_forever(n, s, ss, *p)),
        _ => None,
    }
}

/// All statements of a list.
#[inline(always)]
fn all<'t>(n: u32, list: &'t Vec<Stmt>) -> Next<'t>
    ensures { (t : Tables) (c : Context) (w : Waiting) →
        next_ahead t c w result ≡ from_stmts c.env n (stmts_view list.now.items) (remainder_of w) (from_remainder c.env (remainder_of w)) }
{
    Next::On(Near::Stmts(n, Stmts { list, from: 0 }))
}

/// A step in a statement with this line.
#[inline(always)]
fn at_line<'t>(line: u32, next: Next<'t>) -> Option<Entered<'t>>
    ensures { IfSome result (λ b. (t : Tables) (env : Known) (w : Waiting) → entered_ahead t env w b ≡ next_ahead t (context env line) w next.entry) }
{
    Some(Entered { line, next })
}

/// `d := e`: the variable before the value. None where it has other selectors than one index alone.
#[inline(always)]
fn assign<'t>(d: &'t Desig, e: &'t Expr, site: Site<'t, '_>) -> Option<Next<'t>>
    ensures { IfSome result (λ next. (t : Tables) (line : ℕ) (w : Waiting) → next_ahead t (context (env_view site.entry.env) line) w next
        ≡ from_assign (context (env_view site.entry.env) line) (desig_view d.now) (expr_view e.now) (remainder_of w)) }
{
    match d.selectors.as_slice() {
        [] => Some(Next::Over(Waits::StoreAt(site.spot(&d.name).spot), Near::Expr(e))),
        _ => Some(Next::ToAssign(target(d, site)?, e)),
    }
}

/// `repeat ss forever`: the statements, and behind them the way back.
#[tactic(auto, using(crate::proofs::Rules::tests))]
#[inline(always)]
fn begin_forever<'t>(n: u32, s: OneStmt<'t>, list: &'t Vec<Stmt>, place: Place) -> Entered<'t>
    ensures { (t : Tables) (env : Known) (w : Waiting) →
        stmt_at s.entry ≡ trees.repeat_forever (stmts_view list.now.items) place →
        entered_ahead t env w result ≡ from_stmt env n (trees.repeat_forever (stmts_view list.now.items) place) (remainder_of w)
        (from_remainder env (remainder_of w)) }
{
    Entered {
        line: place.line,
        next: Next::Ahead(Behind::Turn(n, s), Near::Stmts(n, Stmts { list, from: 0 })),
    }
}
