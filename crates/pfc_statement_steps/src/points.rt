//! Where a part of a statement has its value, or has ended.
ghost use Rattle.std.specs.Prelude.{◌≡◌, ℕ, IfOk, option_map};
ghost use Rattle.std.specs.Option.{option_copied};
ghost use Rattle.pfc_tree.specs.trees.Stmts.{StmtTrees, empty};
ghost use Rattle.pfc_tree.specs.views.Exprs.{expr_view};
ghost use Rattle.pfc_tree.specs.views.Stmts.{repeat_of};
ghost use Rattle.pfc_types.specs.rules.Expressions.{Env as Known};
ghost use Rattle.pfc_semantics.specs.Remainders.{Context, by_reference, choose, ends, next_pass, behind_pass, writes};
ghost use Rattle.pfc_semantics.specs.Expressions.{from_expr};
ghost use Rattle.pfc_semantics.specs.Statements as statements;
ghost use Rattle.pfc_semantics.specs.Statements.{next_kept};
ghost use Rattle.pfc_semantics.specs.Values.{Value as Held, ordinal};
ghost use Rattle.pfc_semantics.specs.Alternatives.{context};
ghost use Rattle.pfc_semantics.specs.Rewriting.{from_remainder, from_value, loop_line};
ghost use Rattle.pfc_store.specs.Views.{value_view};
ghost use Rattle.pfc_phrases.specs.Views.{env_view};
ghost use Rattle.pfc_program.specs.declared.tables.Tables.{Tables};
ghost use Rattle.pfc_pending.specs.Ahead.{begun_ahead, step_ahead};
ghost use Rattle.pfc_pending.specs.Texts.{stmt_at};
ghost use Rattle.pfc_pending.specs.Waiting.{Waiting, remainder_of, awaits_of, point_over, choose_of, choose_arm_of, while_true_of, until_true_of};
ghost use Rattle.pfc_pending.specs.Waiting.{count_from_of, count_to_of, counting_of, until_of, pass_over, counter_view};
ghost use Rattle.pfc_pending.specs.declared.pending.Point.TheVariants as point;
ghost use Rattle.pfc_statement_steps.specs.Begins.{node_view};

use crate::lists::{arm, node};
use pfc_base::{Memory, Place};
use pfc_pending::{At, Begun, Count, Counter, Deed, OneStmt, Pending, Point, Step};
use pfc_phrases::Env;
use pfc_program::behind_stmt;
use pfc_sites::Site;
use pfc_store::{Spot, Value};
use pfc_tree::{Expr, Stmt};
use pfc_values::is_true;
use std::alloc::Global;

/// A value has come for a part of a statement that is under way, on the line at hand. Its only refusals are a number of more than 32
/// bits, and another line than that of a loop which goes on here, which never comes: both count as want of memory.
pub fn arrive_in<'t>(
    n: u32,
    s: OneStmt<'t>,
    point: Point,
    v: &Value,
    line: u32,
    site: Site<'t, '_>,
) -> Result<Step<'t>, Memory>
    ensures { IfOk result (λ step. (t : Tables) (w : Waiting) → step_ahead t (context (env_view site.entry.env) line) w step ≡ from_value
        (context (env_view site.entry.env) line) (awaits_of (point_over n (stmt_at s.entry) w point)) (value_view v.now)) }
{
    match point {
        Point::Choose => choose(n, node(s), v),
        Point::ChooseArm => choose_arm(n, node(s), v, site.env),
        Point::WhileTrue => while_true(n, s, node(s), v, line),
        Point::UntilTrue => Ok(until_true(n, s, node(s), v)),
        Point::CountFrom(at) => Ok(count_from(n, s, node(s), at, v)),
        Point::CountTo(at, from) => count_to(n, s, node(s), at, from, v, line, site.alloc),
        Point::Turn
        | Point::Again
        | Point::Until
        | Point::Pass(_)
        | Point::BehindPass(_)
        | Point::NextPass(_) => Ok(no_step()),
    }
}

/// What never comes: a value where none is waited for, or an end where a value is.
#[tactic(auto, using(crate::proofs::Rules::points))]
fn no_step<'t>() -> Step<'t>
    ensures value { (t : Tables) (c : Context) (w : Waiting) (v : Held) → step_ahead t c w result ≡ from_value c (choose 0 empty empty (ends 0)) v }
    ensures rest { (t : Tables) (c : Context) (w : Waiting) → step_ahead t c w result ≡ from_remainder c.env (ends 0) }
{
    Step::On(At::Deed(Deed::Finishes(0)))
}

/// The test of an `if`.
#[tactic(auto, using(crate::proofs::Rules::points))]
fn choose<'t>(n: u32, found: Option<&'t Stmt>, v: &Value) -> Result<Step<'t>, Memory>
    ensures { IfOk result (λ step. (t : Tables) (c : Context) (w : Waiting) →
        step_ahead t c w step ≡ from_value c (choose_of n (node_view (option_copied found.entry)) (remainder_of w)) (value_view v.now)) }
{
    let Some(Stmt::If(_, then, other, _)) = found else {
        return Ok(Step::On(At::Rest))
    };
    if is_true(v.ordinal()) {
        return Ok(Step::On(At::Stmt(n, OneStmt::Alone(then))));
    }
    match other {
        Some(other) => {
            let next = behind_stmt(then, n)?;
            Ok(Step::On(At::Stmt(next, OneStmt::Alone(other))))
        }
        None => Ok(Step::On(At::Rest)),
    }
}

/// The value of a `case`.
#[tactic(auto, using(crate::proofs::Rules::points))]
fn choose_arm<'t>(n: u32, found: Option<&'t Stmt>, v: &Value, env: Env) -> Result<Step<'t>, Memory>
    ensures { IfOk result (λ step. (t : Tables) (line : ℕ) (w : Waiting) →
        step_ahead t (context (env_view env.entry) line) w step ≡ from_value (context (env_view env.entry) line)
        (choose_arm_of n (node_view (option_copied found.entry)) (remainder_of w)) (value_view v.now)) }
{
    match found {
        Some(Stmt::Case(_, arms, _, _)) => arm(n, v.ordinal(), arms, env),
        _ => Ok(Step::On(At::Rest)),
    }
}

/// The test of a `while`, whose way back has its line.
#[tactic(auto, using(crate::proofs::Rules::points))]
fn while_true<'t>(
    n: u32,
    s: OneStmt<'t>,
    found: Option<&'t Stmt>,
    v: &Value,
    line: u32,
) -> Result<Step<'t>, Memory>
    requires { node_view (option_copied found) ≡ stmt_at s }
    ensures { IfOk result (λ step. (t : Tables) (env : Known) (w : Waiting) → step_ahead t (context env line) w step ≡ from_value (context env line)
        (while_true_of n (stmt_at s.entry) (remainder_of w)) (value_view v.now)) }
{
    let Some(Stmt::While(_, pass, place)) = found else {
        return Ok(Step::On(At::Rest))
    };
    if !is_true(v.ordinal()) {
        return Ok(Step::On(At::Rest));
    }
    if place.line != line {
        return Err(Memory);
    }
    let pass = At::Stmt(n, OneStmt::Alone(pass));
    Ok(Step::Under(Pending::Within(n, s, Point::Turn), pass))
}

/// The test of a `repeat`.
#[tactic(auto, using(crate::proofs::Rules::points))]
fn until_true<'t>(n: u32, s: OneStmt<'t>, found: Option<&'t Stmt>, v: &Value) -> Step<'t>
    requires { node_view (option_copied found) ≡ stmt_at s }
    ensures { (t : Tables) (c : Context) (w : Waiting) →
        step_ahead t c w result ≡ from_value c (until_true_of n (stmt_at s.entry) (remainder_of w)) (value_view v.now) }
{
    let Some(Stmt::Repeat(_, Some(_), _)) = found else {
        return Step::On(At::Rest)
    };
    if is_true(v.ordinal()) {
        Step::On(At::Rest)
    } else {
        Step::Under(Pending::Within(n, s, Point::Again), At::Deed(Deed::Turns))
    }
}

/// The first bound of a `for`.
#[tactic(auto, using(crate::proofs::Rules::points))]
fn count_from<'t>(
    n: u32,
    s: OneStmt<'t>,
    found: Option<&'t Stmt>,
    at: Counter,
    v: &Value,
) -> Step<'t>
    requires { node_view (option_copied found) ≡ stmt_at s }
    ensures { (t : Tables) (c : Context) (w : Waiting) →
        step_ahead t c w result ≡ from_value c (count_from_of n (stmt_at s.entry) (by_reference (counter_view at)) (remainder_of w)) (value_view v.now) }
{
    let Some(Stmt::For(_, _, _, b, _, _, _)) = found else {
        return Step::On(At::Rest)
    };
    count_on(n, s, b, at, v.ordinal())
}

/// The first bound has this value: the second is evaluated.
fn count_on<'t>(n: u32, s: OneStmt<'t>, b: &'t Expr, at: Counter, from: i64) -> Step<'t>
    ensures { (t : Tables) (c : Context) (w : Waiting) →
        step_ahead t c w result ≡ from_expr c (expr_view b.now) (count_to_of n (stmt_at s.entry) (by_reference (counter_view at)) from (remainder_of w))
        (from_value c (count_to_of n (stmt_at s.entry) (by_reference (counter_view at)) from (remainder_of w))) }
{
    Step::Under(Pending::Within(n, s, Point::CountTo(at, from)), At::Expr(b))
}

/// Whether the first value of a `for` is past its last one.
fn is_past(down: bool, first: i64, last: i64) -> bool
    ensures { result ≡ statements.is_past down first last }
{
    if down { first < last } else { last < first }
}

/// The last bound of a `for`: nothing, where the first value is past it; else a first pass, on the line of the `for`.
#[tactic(auto, using(crate::proofs::Rules::points))]
fn count_to<'t>(
    n: u32,
    s: OneStmt<'t>,
    found: Option<&'t Stmt>,
    at: Counter,
    kept: i64,
    v: &Value,
    line: u32,
    alloc: Global,
) -> Result<Step<'t>, Memory>
    requires { node_view (option_copied found) ≡ stmt_at s }
    ensures { IfOk result (λ step. (t : Tables) (env : Known) (w : Waiting) → step_ahead t (context env line) w step ≡ from_value (context env line)
        (count_to_of n (stmt_at s.entry) (by_reference (counter_view at)) kept (remainder_of w)) (value_view v.now)) }
{
    let Some(Stmt::For(_, _, down, _, _, place, _)) = found else {
        return Ok(Step::On(At::Rest))
    };
    let last = v.ordinal();
    if is_past(*down, kept, last) {
        return Ok(Step::On(At::Rest));
    }
    if place.line != line {
        return Err(Memory);
    }
    Ok(begin_pass(n, s, Count { at, kept, last }, alloc))
}

/// The kept value is written, and then the statement is performed.
fn begin_pass<'t>(n: u32, s: OneStmt<'t>, count: Count, alloc: Global) -> Step<'t>
    ensures { (t : Tables) (c : Context) (w : Waiting) → step_ahead t c w result ≡ writes c (counter_view count.at) (ordinal count.kept)
        (remainder_of (point_over n (stmt_at s.entry) w (point.Pass count))) }
{
    let spot = Spot {
        scope: count.at.scope,
        variable: count.at.variable,
        selectors: Vec::new(alloc),
    };
    let write = Deed::Writes(spot, Value::of(count.kept));
    Step::Under(Pending::Within(n, s, Point::Pass(count)), At::Deed(write))
}

/// A part of a statement that is under way has ended; its variable's place needs no memory. Its only refusal is a count of more than 64
/// bits, which counts as want of memory.
pub fn resume_in<'t>(
    n: u32,
    s: OneStmt<'t>,
    point: Point,
    alloc: Global,
) -> Result<Begun<'t>, Memory>
    ensures { IfOk result (λ begun. (t : Tables) (env : Known) (w : Waiting) →
        begun_ahead t env w begun ≡ from_remainder env (remainder_of (point_over n (stmt_at s.entry) w point))) }
{
    match point {
        Point::Turn => Ok(turn(n, s, node(s))),
        Point::Again => Ok(quiet(Step::On(At::Stmt(n, s)))),
        Point::Until => Ok(until(n, s, node(s))),
        Point::Pass(count) => Ok(pass(n, s, node(s), count)),
        Point::BehindPass(count) => behind(n, s, node(s), count),
        Point::NextPass(count) => Ok(next(n, s, node(s), count, alloc)),
        Point::Choose
        | Point::ChooseArm
        | Point::WhileTrue
        | Point::UntilTrue
        | Point::CountFrom(_)
        | Point::CountTo(_, _) => Ok(quiet(no_step())),
    }
}

/// A step for which the line does not count.
fn quiet<'t>(step: Step<'t>) -> Begun<'t>
    ensures { (t : Tables) (env : Known) (w : Waiting) → begun_ahead t env w result ≡ step_ahead t (context env 0) w step.entry }
{
    Begun { line: 0, step }
}

/// The line of a loop.
#[tactic(auto, using(crate::proofs::Rules::points))]
fn line_of(found: Option<&Stmt>) -> u32
    ensures { result ≡ loop_line (node_view (option_copied found.entry)) }
{
    match found {
        Some(Stmt::While(_, _, p)) => p.line,
        Some(Stmt::Repeat(_, _, p)) => p.line,
        _ => 0,
    }
}

/// The way back of a loop.
fn turn<'t>(n: u32, s: OneStmt<'t>, found: Option<&'t Stmt>) -> Begun<'t>
    requires { node_view (option_copied found) ≡ stmt_at s }
    ensures { (t : Tables) (env : Known) (w : Waiting) →
        begun_ahead t env w result ≡ from_remainder env (remainder_of (point_over n (stmt_at s.entry) w point.Turn)) }
{
    Begun {
        line: line_of(found),
        step: Step::Under(Pending::Within(n, s, Point::Again), At::Deed(Deed::Turns)),
    }
}

/// The statements of a `repeat` have ended: its test.
fn until<'t>(n: u32, s: OneStmt<'t>, found: Option<&'t Stmt>) -> Begun<'t>
    requires { node_view (option_copied found) ≡ stmt_at s }
    ensures { (t : Tables) (env : Known) (w : Waiting) → begun_ahead t env w result ≡ from_remainder env (until_of n (stmt_at s.entry) (remainder_of w)) }
{
    let Some(Stmt::Repeat(_, test, place)) = found else {
        return quiet(Step::On(At::Rest))
    };
    test_again(n, s, test, *place)
}

/// The test of a `repeat`, which belongs to it and has its line; without one there is nothing.
#[tactic(auto, using(crate::proofs::Repeats::tests))]
fn test_again<'t>(n: u32, s: OneStmt<'t>, test: &'t Option<Box<Expr>>, place: Place) -> Begun<'t>
    ensures { (t : Tables) (env : Known) (w : Waiting) (ss : StmtTrees) → repeat_of ss (option_map (λ e. expr_view e.value) test.now) place ≡ stmt_at s.entry →
        begun_ahead t env w result ≡ from_remainder env (until_of n (stmt_at s.entry) (remainder_of w)) }
{
    match test {
        Some(e) => Begun {
            line: place.line,
            step: Step::Under(Pending::Within(n, s, Point::UntilTrue), At::Expr(e)),
        },
        None => quiet(Step::On(At::Rest)),
    }
}

/// The statement of a `for`.
#[tactic(auto, using(crate::proofs::Rules::points))]
fn pass<'t>(n: u32, s: OneStmt<'t>, found: Option<&'t Stmt>, count: Count) -> Begun<'t>
    requires { node_view (option_copied found) ≡ stmt_at s }
    ensures { (t : Tables) (env : Known) (w : Waiting) →
        begun_ahead t env w result ≡ from_remainder env (counting_of n (stmt_at s.entry) count pass_over (remainder_of w)) }
{
    let Some(Stmt::For(_, _, _, _, pass, _, _)) = found else {
        return quiet(Step::On(At::Rest))
    };
    let pass = At::Stmt(n, OneStmt::Alone(pass));
    quiet(Step::Under(Pending::Within(n, s, Point::BehindPass(count)), pass))
}

/// Behind the statement of a `for`: nothing more where the kept value is the last, else a turn to the next value.
#[tactic(auto, using(crate::proofs::Rules::points))]
fn behind<'t>(
    n: u32,
    s: OneStmt<'t>,
    found: Option<&'t Stmt>,
    count: Count,
) -> Result<Begun<'t>, Memory>
    requires { node_view (option_copied found) ≡ stmt_at s }
    ensures { IfOk result (λ begun. (t : Tables) (env : Known) (w : Waiting) →
        begun_ahead t env w begun ≡ from_remainder env (counting_of n (stmt_at s.entry) count behind_pass (remainder_of w))) }
{
    let Some(Stmt::For(_, _, down, _, _, place, _)) = found else {
        return Ok(quiet(Step::On(At::Rest)))
    };
    if count.kept == count.last {
        return Ok(quiet(Step::On(At::Rest)));
    }
    let next = following(count, *down)?;
    Ok(Begun {
        line: place.line,
        step: Step::Under(
            Pending::Within(n, s, Point::NextPass(next)),
            At::Deed(Deed::Turns),
        ),
    })
}

/// The count with its next value.
fn following(count: Count, down: bool) -> Result<Count, Memory>
    ensures { IfOk result (λ f. f ≡ record count { kept = next_kept down count.kept }) }
{
    let next = if down {
        count.kept.checked_sub(1)
    } else {
        count.kept.checked_add(1)
    };
    match next {
        Some(kept) => Ok(Count { kept, ..count }),
        None => Err(Memory),
    }
}

/// A `for` whose next value is to be written.
#[tactic(auto, using(crate::proofs::Rules::points))]
fn next<'t>(
    n: u32,
    s: OneStmt<'t>,
    found: Option<&'t Stmt>,
    count: Count,
    alloc: Global,
) -> Begun<'t>
    requires { node_view (option_copied found) ≡ stmt_at s }
    ensures { (t : Tables) (env : Known) (w : Waiting) →
        begun_ahead t env w result ≡ from_remainder env (counting_of n (stmt_at s.entry) count next_pass (remainder_of w)) }
{
    let Some(Stmt::For(_, _, _, _, _, place, _)) = found else {
        return quiet(Step::On(At::Rest))
    };
    Begun {
        line: place.line,
        step: begin_pass(n, s, count, alloc),
    }
}
