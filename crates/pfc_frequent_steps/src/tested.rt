//! The tests of statements: `if`, `case`, `while` and `repeat .. until`.
ghost use Rattle.std.specs.Prelude.{◌≡◌, ℕ, Bool, Option, Some, length, ◌-◌, slice_get, IfSome};
ghost use Rattle.std.specs.Option.{option_copied};
ghost use Rattle.std.specs.declared.boxed.Box.{Box};
ghost use Rattle.std.specs.declared.alloc.Global.{Global as Heap};
ghost use Rattle.pfc_tree.specs.trees.Stmts as trees;
ghost use Rattle.pfc_tree.specs.trees.Stmts.{ArmTrees, StmtTree, StmtTrees};
ghost use Rattle.pfc_tree.specs.views.Exprs.{expr_view};
ghost use Rattle.pfc_tree.specs.views.Stmts.{if_of, stmts_view};
ghost use Rattle.pfc_types.specs.rules.Expressions.{Env as Known};
ghost use Rattle.pfc_program.specs.declared.tables.Tables.{Tables};
ghost use Rattle.pfc_semantics.specs.Alternatives.{context};
ghost use Rattle.pfc_semantics.specs.Remainders.{Context};
ghost use Rattle.pfc_semantics.specs.Rewriting.{from_remainder, from_value};
ghost use Rattle.pfc_semantics.specs.Statements.{from_stmt};
ghost use Rattle.pfc_semantics.specs.Values.{ordinal};
ghost use Rattle.pfc_pending.specs.Texts.{stmt_at};
ghost use Rattle.pfc_phrases.specs.Views.{env_view};
ghost use Rattle.pfc_pending.specs.Waiting.{Waiting, awaits_of, choose_arm_of, choose_of, over, remainder_of, until_of, until_true_of, waiting, while_true_of};
ghost use Rattle.pfc_frequent_steps.specs.Near.{entered_ahead, near_ahead, next_ahead, node_view, tested_part, went_ahead, HasRoom};
ghost use Rattle.pfc_frequent_steps.specs.declared.near.Near.TheVariants as near;

use crate::near::{Behind, Entered, Near, Next, Test, Tested, Went};
use crate::stack::go_on;
use crate::statements::node;
use pfc_base::{Memory, Place};
use pfc_frequent_parts::arm_with;
use pfc_pending::{OneStmt, Pending, Point, Stmts};
use pfc_phrases::Env;
use pfc_program::behind_stmt;
use pfc_tree::{Expr, Stmt};
use pfc_values::is_true;
use std::mem;

/// `if e then s else t`, or without the second: the test.
#[tactic(auto, using(crate::proofs::Rules::tests))]
#[inline(always)]
pub(crate) fn begin_if<'t>(n: u32, s: OneStmt<'t>, e: &'t Expr, place: Place) -> Entered<'t>
    ensures { (t : Tables) (env : Known) (w : Waiting) (first : StmtTree) (other : Option (Box StmtTree Heap)) →
        stmt_at s.entry ≡ if_of (expr_view e.now) first other place →
        entered_ahead t env w result ≡ from_stmt env n (if_of (expr_view e.now) first other place) (remainder_of w) (from_remainder env (remainder_of w)) }
{
    let part = tested(n, s, Test::Choose);
    Entered {
        line: place.line,
        next: Next::Tests(part, Near::Expr(e)),
    }
}

/// `case e of .. end`: the value.
#[tactic(auto, using(crate::proofs::Rules::tests))]
#[inline(always)]
pub(crate) fn begin_case<'t>(n: u32, s: OneStmt<'t>, e: &'t Expr, place: Place) -> Entered<'t>
    ensures { (t : Tables) (env : Known) (w : Waiting) (arms : ArmTrees) (last : Bool) →
        stmt_at s.entry ≡ trees.case_of (expr_view e.now) arms last place →
        entered_ahead t env w result ≡ from_stmt env n (trees.case_of (expr_view e.now) arms last place) (remainder_of w)
        (from_remainder env (remainder_of w)) }
{
    let part = tested(n, s, Test::ChooseArm);
    Entered {
        line: place.line,
        next: Next::Tests(part, Near::Expr(e)),
    }
}

/// `while e do s`: the test.
#[tactic(auto, using(crate::proofs::Rules::tests))]
#[inline(always)]
pub(crate) fn begin_while<'t>(n: u32, s: OneStmt<'t>, e: &'t Expr, place: Place) -> Entered<'t>
    ensures { (t : Tables) (env : Known) (w : Waiting) (pass : StmtTree) → stmt_at s.entry ≡ trees.while_do (expr_view e.now) pass place →
        entered_ahead t env w result ≡ from_stmt env n (trees.while_do (expr_view e.now) pass place) (remainder_of w) (from_remainder env (remainder_of w)) }
{
    let part = tested(n, s, Test::WhileTrue);
    Entered {
        line: place.line,
        next: Next::Tests(part, Near::Expr(e)),
    }
}

/// `repeat ss until e`: the statements, and behind them the test.
#[tactic(auto, using(crate::proofs::Rules::tests))]
#[inline(always)]
pub(crate) fn begin_until<'t>(
    n: u32,
    s: OneStmt<'t>,
    list: &'t Vec<Stmt>,
    e: &Expr,
    place: Place,
) -> Entered<'t>
    ensures { (t : Tables) (env : Known) (w : Waiting) → stmt_at s.entry ≡ trees.repeat_until (stmts_view list.now.items) (expr_view e.now) place →
        entered_ahead t env w result ≡ from_stmt env n (trees.repeat_until (stmts_view list.now.items) (expr_view e.now) place) (remainder_of w)
        (from_remainder env (remainder_of w)) }
{
    Entered {
        line: place.line,
        next: Next::Ahead(Behind::Until(n, s), Near::Stmts(n, Stmts { list, from: 0 })),
    }
}

/// The statements of a `repeat` have ended: its test.
#[inline(always)]
pub(crate) fn until<'t>(n: u32, s: OneStmt<'t>, found: Option<&'t Stmt>) -> Entered<'t>
    requires { node_view (option_copied found) ≡ stmt_at s }
    ensures { (t : Tables) (env : Known) (w : Waiting) → entered_ahead t env w result ≡ from_remainder env (until_of n (stmt_at s.entry) (remainder_of w)) }
{
    match found {
        Some(Stmt::Repeat(_, Some(e), place)) => test_again(n, s, e, *place),
        _ => Entered {
            line: 0,
            next: Next::On(Near::Rest),
        },
    }
}

/// The test of a `repeat`, which belongs to it and has its line.
#[tactic(auto, using(crate::proofs::Rules::untils))]
#[inline(always)]
fn test_again<'t>(n: u32, s: OneStmt<'t>, e: &'t Expr, place: Place) -> Entered<'t>
    ensures { (t : Tables) (env : Known) (w : Waiting) (ss : StmtTrees) → trees.repeat_until ss (expr_view e.now) place ≡ stmt_at s.entry →
        entered_ahead t env w result ≡ from_remainder env (until_of n (stmt_at s.entry) (remainder_of w)) }
{
    let part = tested(n, s, Test::UntilTrue);
    Entered {
        line: place.line,
        next: Next::Tests(part, Near::Expr(e)),
    }
}

/// A number meets the test that is pending innermost. All is as it was where another part is, and where the test is that of a loop on another
/// line, or the next scope of the text has a number of more than 32 bits, which never comes; and where no arm of a `case` has the value.
pub(crate) fn meet_test<'t>(v: i64, line: u32, pending: &mut Vec<Pending<'t>>, env: Env) -> Went<'t>
    requires { HasRoom pending.old }
    ensures { (t : Tables) → let c = context (env_view env.entry) line in
        went_ahead t c (waiting t pending.new.items) result ≡ near_ahead t c (waiting t pending.old.items) (near.Number v) }
{
    match last_test(pending) {
        Some(part) => match decided(part, v, line, env) {
            Some(next) => {
                take(pending, part);
                Went::On(go_on(pending, next))
            }
            None => Went::Ends(Near::Number(v)),
        },
        None => Went::Ends(Near::Number(v)),
    }
}

/// The test that is pending innermost, None where another part is.
#[inline(always)]
fn last_test<'t>(pending: &Vec<Pending<'t>>) -> Option<Tested<'t>>
    ensures { IfSome result (λ x. Some (tested_part x) ≡ slice_get pending.now.items (length pending.now.items - 1)) }
{
    match pending.last() {
        Some(part) => test_of(part),
        None => None,
    }
}

/// The test of a statement, before which the next scope of the text has the number n.
#[inline(always)]
fn tested<'t>(n: u32, s: OneStmt<'t>, test: Test) -> Tested<'t>
    ensures { result ≡ record { n = n; s = s.entry; test = test } }
{
    Tested { n, s, test }
}

/// A test that is pending, None where this is none.
#[inline(always)]
fn test_of<'t>(part: &Pending<'t>) -> Option<Tested<'t>>
    ensures { IfSome result (λ x. tested_part x ≡ part.now) }
{
    match part {
        Pending::Within(n, s, Point::Choose) => Some(tested(*n, *s, Test::Choose)),
        Pending::Within(n, s, Point::ChooseArm) => Some(tested(*n, *s, Test::ChooseArm)),
        Pending::Within(n, s, Point::WhileTrue) => Some(tested(*n, *s, Test::WhileTrue)),
        Pending::Within(n, s, Point::UntilTrue) => Some(tested(*n, *s, Test::UntilTrue)),
        _ => None,
    }
}

/// Takes the test that is pending innermost.
#[inline(always)]
fn take<'t>(pending: &mut Vec<Pending<'t>>, part: Tested<'t>)
    requires room { HasRoom pending.old }
    requires last { Some (tested_part part) ≡ slice_get pending.old.items (length pending.old.items - 1) }
    ensures taken { (t : Tables) → over t (waiting t pending.new.items) (tested_part part.entry) ≡ waiting t pending.old.items }
    ensures room { HasRoom pending.new }
{
    mem::forget(pending.pop());
}

/// What comes where a test has its value.
#[inline(always)]
fn decided<'t>(part: Tested<'t>, v: i64, line: u32, env: Env) -> Option<Next<'t>>
    ensures { IfSome result (λ next. (t : Tables) (w : Waiting) → let c = context (env_view env.entry) line in
        next_ahead t c w next ≡ from_value c (awaits_of (over t w (tested_part part.entry))) (ordinal v)) }
{
    match part.test {
        Test::Choose => choose(part.n, node(part.s), v),
        Test::ChooseArm => choose_arm(part.n, node(part.s), v, env),
        Test::WhileTrue => while_true(part.n, part.s, node(part.s), v, line),
        Test::UntilTrue => Some(until_true(part.n, part.s, node(part.s), v)),
    }
}

/// The test of an `if`.
#[tactic(auto, using(crate::proofs::Rules::points))]
#[inline(always)]
fn choose<'t>(n: u32, found: Option<&'t Stmt>, v: i64) -> Option<Next<'t>>
    ensures { IfSome result (λ next. (t : Tables) (c : Context) (w : Waiting) →
        next_ahead t c w next ≡ from_value c (choose_of n (node_view (option_copied found.entry)) (remainder_of w)) (ordinal v)) }
{
    let Some(Stmt::If(_, then, other, _)) = found else {
        return Some(Next::On(Near::Rest))
    };
    if is_true(v) {
        return Some(Next::On(Near::Stmt(n, OneStmt::Alone(then))));
    }
    match other {
        Some(other) => match behind_stmt(then, n) {
            Ok(next) => Some(Next::On(Near::Stmt(next, OneStmt::Alone(other)))),
            Err(Memory) => None,
        },
        None => Some(Next::On(Near::Rest)),
    }
}

/// The value of a `case`, None where no arm has it.
fn choose_arm<'t>(n: u32, found: Option<&'t Stmt>, v: i64, env: Env) -> Option<Next<'t>>
    ensures { IfSome result (λ next. (t : Tables) (line : ℕ) (w : Waiting) → let c = context (env_view env.entry) line in
        next_ahead t c w next ≡ from_value c (choose_arm_of n (node_view (option_copied found.entry)) (remainder_of w)) (ordinal v)) }
{
    let Some(Stmt::Case(_, arms, _, _)) = found else {
        return None
    };
    let arm = arm_with(n, v, arms, env)?;
    Some(Next::On(Near::Stmt(arm.n, arm.s)))
}

/// The test of a `while`, whose way back has its line.
#[tactic(auto, using(crate::proofs::Rules::points))]
#[inline(always)]
fn while_true<'t>(
    n: u32,
    s: OneStmt<'t>,
    found: Option<&'t Stmt>,
    v: i64,
    line: u32,
) -> Option<Next<'t>>
    requires { node_view (option_copied found) ≡ stmt_at s }
    ensures { IfSome result (λ next. (t : Tables) (env : Known) (w : Waiting) → next_ahead t (context env line) w next
        ≡ from_value (context env line) (while_true_of n (stmt_at s.entry) (remainder_of w)) (ordinal v)) }
{
    let Some(Stmt::While(_, pass, place)) = found else {
        return Some(Next::On(Near::Rest))
    };
    if !is_true(v) {
        return Some(Next::On(Near::Rest));
    }
    if place.line != line {
        return None;
    }
    let pass = Near::Stmt(n, OneStmt::Alone(pass));
    Some(Next::Ahead(Behind::Turn(n, s), pass))
}

/// The test of a `repeat`.
#[tactic(auto, using(crate::proofs::Rules::points))]
#[inline(always)]
fn until_true<'t>(n: u32, s: OneStmt<'t>, found: Option<&'t Stmt>, v: i64) -> Next<'t>
    requires { node_view (option_copied found) ≡ stmt_at s }
    ensures { (t : Tables) (c : Context) (w : Waiting) →
        next_ahead t c w result ≡ from_value c (until_true_of n (stmt_at s.entry) (remainder_of w)) (ordinal v) }
{
    let Some(Stmt::Repeat(_, Some(_), _)) = found else {
        return Next::On(Near::Rest)
    };
    if is_true(v) {
        Next::On(Near::Rest)
    } else {
        Next::Ahead(Behind::Again(n, s), Near::Turns)
    }
}
