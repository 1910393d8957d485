//! Frequent steps, up to an action or to what is no frequent step.
ghost use Rattle.std.specs.Prelude.{◌≡◌, ℕ, IfSome};
ghost use Rattle.pfc_program.specs.declared.tables.Tables.{Tables};
ghost use Rattle.pfc_types.specs.rules.Expressions.{Env as Known};
ghost use Rattle.pfc_semantics.specs.Alternatives.{context};
ghost use Rattle.pfc_semantics.specs.Rewriting.{from_remainder};
ghost use Rattle.pfc_semantics.specs.Statements.{from_stmt};
ghost use Rattle.pfc_phrases.specs.Views.{env_view};
ghost use Rattle.pfc_pending.specs.Ahead.{ahead, deed_ahead};
ghost use Rattle.pfc_pending.specs.Texts.{stmt_at};
ghost use Rattle.pfc_pending.specs.Waiting.{Waiting, remainder_of, waiting};
ghost use Rattle.pfc_frequent_steps.specs.declared.near.Near.TheVariants as near;
ghost use Rattle.pfc_frequent_steps.specs.Near.{near_ahead, went_ahead, HasRoom};

use crate::counts::go_on_counting;
use crate::ended::ended;
use crate::expressions::{expr, simple, term};
use crate::names::factor;
use crate::near::{Near, Went, frequent};
use crate::stack::{go_on, take_behind, take_waits};
use crate::statements::{node, stmt, stmts};
use crate::tested::meet_test;
use crate::values::meet;
use pfc_frequent_parts::{Acts, Reached, action_of, meet_index};
use pfc_pending::{At, OneStmt, Pending};
use pfc_sites::Site;
use std::alloc::Global;
use std::mem;

/// Frequent steps from what is at hand: what they come to is at hand then, over what is pending then.
#[inline(never)]
pub fn come<'t>(at: &mut At<'t>, line: &mut u32, pending: &mut Vec<Pending<'t>>, site: Site<'t, '_>)
    ensures { (t : Tables) → ahead t (context (env_view site.entry.env) line.new) (waiting t pending.new.items) at.new
        ≡ ahead t (context (env_view site.entry.env) line.old) (waiting t pending.old.items) at.old }
{
    if let Some(near) = frequent(at) {
        match advance(near, line, pending, site) {
            Near::Stmt(n, s) => leave(n, s, at, line, site),
            near => put(at, near.at_hand()),
        }
    }
}

/// A statement that is none of the frequent ones: where it is one action, that is at hand, and else the statement.
#[inline(never)]
fn leave<'t>(n: u32, s: OneStmt<'t>, place: &mut At<'t>, line: &mut u32, site: Site<'t, '_>)
    ensures { (t : Tables) (w : Waiting) → ahead t (context (env_view site.entry.env) line.new) w place.new
        ≡ near_ahead t (context (env_view site.entry.env) line.old) w (near.Stmt n s.entry) }
{
    match acting(s, site) {
        Some(acts) => {
            *line = acts.line;
            put(place, At::Deed(acts.deed));
        }
        None => put(place, At::Stmt(n, s)),
    }
}

/// The action that a statement is at once, None for any other.
fn acting<'t>(s: OneStmt<'t>, site: Site<'t, '_>) -> Option<Acts<'t>>
    ensures { IfSome result (λ a. (t : Tables) (n : ℕ) (w : Waiting) → let env = env_view site.entry.env in
        deed_ahead t (context env a.line) w a.deed ≡ from_stmt env n (stmt_at s.entry) (remainder_of w) (from_remainder env (remainder_of w))) }
{
    match node(s) {
        Some(found) => action_of(found, site),
        None => None,
    }
}

/// This is at hand now. What was frequent at hand is a part of the text, a number or nothing, and owns nothing: it needs not be let go of.
fn put<'t>(place: &mut At<'t>, at: At<'t>)
    ensures { place.new ≡ at.entry }
{
    mem::forget(mem::replace(place, at));
}

/// Steps up to an action, whose line is that of its statement, or to what no step is frequent for.
#[inline(always)]
fn advance<'t>(
    near: Near<'t>,
    line: &mut u32,
    pending: &mut Vec<Pending<'t>>,
    site: Site<'t, '_>,
) -> Near<'t>
    ensures { (t : Tables) → near_ahead t (context (env_view site.entry.env) line.new) (waiting t pending.new.items) result
        ≡ near_ahead t (context (env_view site.entry.env) line.old) (waiting t pending.old.items) near.entry }
{
    let mut near = near;
    for _step in 0..u64::MAX {
        match pending.reserve(1) {
            Ok(()) => {}
            Err(_) => return near,
        }
        match step(near, line, pending, site) {
            Went::On(next) => near = next,
            Went::Ends(last) => return last,
        }
    }
    near
}

/// One step, in room that was taken before.
#[inline(always)]
fn step<'t>(
    near: Near<'t>,
    line: &mut u32,
    pending: &mut Vec<Pending<'t>>,
    site: Site<'t, '_>,
) -> Went<'t>
    requires { HasRoom pending.old }
    ensures { (t : Tables) → went_ahead t (context (env_view site.entry.env) line.new) (waiting t pending.new.items) result
        ≡ near_ahead t (context (env_view site.entry.env) line.old) (waiting t pending.old.items) near.entry }
{
    match near {
        Near::Number(n) => number(n, *line, pending, site),
        Near::Expr(e) => Went::On(go_on(pending, expr(e))),
        Near::Simple(s) => Went::On(go_on(pending, simple(s))),
        Near::Term(t) => Went::On(go_on(pending, term(t))),
        Near::Factor(f) => match factor(f, site) {
            Some(next) => Went::On(go_on(pending, next)),
            None => Went::Ends(Near::Factor(f)),
        },
        Near::Rest => rest(line, pending, site.alloc),
        Near::Stmt(n, s) => match stmt(n, s, site) {
            Some(entered) => {
                *line = entered.line;
                Went::On(go_on(pending, entered.next))
            }
            None => Went::Ends(Near::Stmt(n, s)),
        },
        Near::Stmts(n, ss) => match stmts(n, ss) {
            Some(next) => Went::On(go_on(pending, next)),
            None => Went::Ends(Near::Stmts(n, ss)),
        },
        near => Went::Ends(near),
    }
}

/// A number meets the innermost part that is pending.
#[inline(always)]
fn number<'t>(n: i64, line: u32, pending: &mut Vec<Pending<'t>>, site: Site<'t, '_>) -> Went<'t>
    requires { HasRoom pending.old }
    ensures { (t : Tables) → let c = context (env_view site.entry.env) line in
        went_ahead t c (waiting t pending.new.items) result ≡ near_ahead t c (waiting t pending.old.items) (near.Number n) }
{
    match take_waits(pending) {
        Some(part) => Went::On(go_on(pending, meet(part, n))),
        None => number_inside(n, line, pending, site),
    }
}

/// A number is an index or the value of a test.
#[inline(always)]
fn number_inside<'t>(
    n: i64,
    line: u32,
    pending: &mut Vec<Pending<'t>>,
    site: Site<'t, '_>,
) -> Went<'t>
    requires { HasRoom pending.old }
    ensures { (t : Tables) → let c = context (env_view site.entry.env) line in
        went_ahead t c (waiting t pending.new.items) result ≡ near_ahead t c (waiting t pending.old.items) (near.Number n) }
{
    match meet_index(n, pending, site) {
        Some(Reached::Reads(spot)) => Went::On(Near::Reads(spot)),
        Some(Reached::Stores(value)) => Went::On(Near::Expr(value)),
        None => meet_test(n, line, pending, site.env),
    }
}

/// A statement has ended: the innermost part that is pending goes on.
#[inline(always)]
fn rest<'t>(line: &mut u32, pending: &mut Vec<Pending<'t>>, alloc: Global) -> Went<'t>
    requires { HasRoom pending.old }
    ensures { (t : Tables) (env : Known) → went_ahead t (context env line.new) (waiting t pending.new.items) result
        ≡ near_ahead t (context env line.old) (waiting t pending.old.items) near.Rest }
{
    match take_behind(pending) {
        Some(part) => {
            let entered = ended(part);
            *line = entered.line;
            Went::On(go_on(pending, entered.next))
        }
        None => go_on_counting(line, pending, alloc),
    }
}
