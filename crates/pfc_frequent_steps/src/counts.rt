//! A `for` that is under way: its statement, what comes behind that, and its next value.
ghost use Rattle.std.specs.Prelude.{◌≡◌, Some, length, ◌-◌, slice_get, IfSome};
ghost use Rattle.std.specs.Option.{option_copied};
ghost use Rattle.pfc_types.specs.rules.Expressions.{Env as Known};
ghost use Rattle.pfc_program.specs.declared.tables.Tables.{Tables};
ghost use Rattle.pfc_semantics.specs.Alternatives.{context};
ghost use Rattle.pfc_semantics.specs.Remainders.{behind_pass, next_pass};
ghost use Rattle.pfc_semantics.specs.Rewriting.{from_remainder};
ghost use Rattle.pfc_semantics.specs.Statements.{next_kept};
ghost use Rattle.pfc_store.specs.Views.{spot_view};
ghost use Rattle.pfc_pending.specs.Texts.{stmt_at};
ghost use Rattle.pfc_pending.specs.Waiting.{Waiting, counter_view, counting_of, over, pass_over, remainder_of, waiting};
ghost use Rattle.pfc_frequent_steps.specs.Counts.{counting_over, counting_part, resumed_ahead};
ghost use Rattle.pfc_frequent_steps.specs.Near.{near_ahead, node_view, went_ahead, HasRoom};
ghost use Rattle.pfc_frequent_steps.specs.declared.near.Near.TheVariants as near;

use crate::near::{Near, Went};
use crate::statements::node;
use pfc_pending::{Count, Counter, OneStmt, Pending, Point};
use pfc_store::Spot;
use pfc_tree::Stmt;
use std::alloc::Global;
use std::mem;

/// Where a `for` that is under way stands: before its statement, behind it, or before its next value.
#[derive(Clone, Copy)]
pub(crate) enum Stage {
    Pass,
    BehindPass,
    NextPass,
}

/// A `for` that is pending, before which the next scope of the text has the number n.
#[derive(Clone, Copy)]
pub(crate) struct Counting<'t> {
    pub(crate) n: u32,
    pub(crate) s: OneStmt<'t>,
    pub(crate) count: Count,
    pub(crate) stage: Stage,
}

/// What comes where a `for` goes on: other at hand, perhaps over the `for`, with the line that it has.
#[derive(Drop)]
pub(crate) struct Resumed<'t> {
    pub(crate) line: u32,
    pub(crate) over: Option<Counting<'t>>,
    pub(crate) near: Near<'t>,
}

/// A statement has ended: a `for` that is pending innermost goes on. All is as it was where none is.
pub(crate) fn go_on_counting<'t>(
    line: &mut u32,
    pending: &mut Vec<Pending<'t>>,
    alloc: Global,
) -> Went<'t>
    requires { HasRoom pending.old }
    ensures { (t : Tables) (env : Known) → went_ahead t (context env line.new) (waiting t pending.new.items) result
        ≡ near_ahead t (context env line.old) (waiting t pending.old.items) near.Rest }
{
    match last_count(pending) {
        Some(part) => match resume(part, alloc) {
            Some(next) => {
                take_count(pending, part);
                put_count(pending, next.over);
                *line = next.line;
                Went::On(next.near)
            }
            None => Went::Ends(Near::Rest),
        },
        None => Went::Ends(Near::Rest),
    }
}

/// The `for` that is pending innermost, None where another part is.
#[inline(always)]
fn last_count<'t>(pending: &Vec<Pending<'t>>) -> Option<Counting<'t>>
    ensures { IfSome result (λ x. Some (counting_part x) ≡ slice_get pending.now.items (length pending.now.items - 1)) }
{
    match pending.last() {
        Some(part) => count_of(part),
        None => None,
    }
}

/// A `for` that is pending, None where this is none.
#[inline(always)]
fn count_of<'t>(part: &Pending<'t>) -> Option<Counting<'t>>
    ensures { IfSome result (λ x. counting_part x ≡ part.now) }
{
    match part {
        Pending::Within(n, s, Point::Pass(count)) => Some(at_stage(*n, *s, *count, Stage::Pass)),
        Pending::Within(n, s, Point::BehindPass(count)) => {
            Some(at_stage(*n, *s, *count, Stage::BehindPass))
        }
        Pending::Within(n, s, Point::NextPass(count)) => {
            Some(at_stage(*n, *s, *count, Stage::NextPass))
        }
        _ => None,
    }
}

/// A `for` at this stage.
#[inline(always)]
fn at_stage<'t>(n: u32, s: OneStmt<'t>, count: Count, stage: Stage) -> Counting<'t>
    ensures { result ≡ record { n = n; s = s.entry; count = count; stage = stage } }
{
    Counting { n, s, count, stage }
}

/// Takes the `for` that is pending innermost.
#[inline(always)]
fn take_count<'t>(pending: &mut Vec<Pending<'t>>, part: Counting<'t>)
    requires room { HasRoom pending.old }
    requires last { Some (counting_part part) ≡ slice_get pending.old.items (length pending.old.items - 1) }
    ensures taken { (t : Tables) → over t (waiting t pending.new.items) (counting_part part.entry) ≡ waiting t pending.old.items }
    ensures room { HasRoom pending.new }
{
    mem::forget(pending.pop());
}

/// Puts a `for` among those that are pending, if there is one, in room that was taken before.
#[tactic(auto, using(crate::proofs::Waiting::parts))]
#[inline(always)]
fn put_count<'t>(pending: &mut Vec<Pending<'t>>, part: Option<Counting<'t>>)
    requires { HasRoom pending.old }
    ensures { (t : Tables) → waiting t pending.new.items ≡ counting_over t (waiting t pending.old.items) part.entry }
{
    let Some(part) = part else { return };
    match part.stage {
        Stage::Pass => pending.push_reserved(Pending::Within(
            part.n,
            part.s,
            Point::Pass(part.count),
        )),
        Stage::BehindPass => {
            pending.push_reserved(Pending::Within(part.n, part.s, Point::BehindPass(part.count)))
        }
        Stage::NextPass => {
            pending.push_reserved(Pending::Within(part.n, part.s, Point::NextPass(part.count)))
        }
    }
}

/// What comes for a `for` that goes on. None where its next value has more than 64 bits, or where the statement is no `for`, which never
/// comes.
#[inline(always)]
fn resume<'t>(part: Counting<'t>, alloc: Global) -> Option<Resumed<'t>>
    ensures { IfSome result (λ next. (t : Tables) (env : Known) (w : Waiting) →
        resumed_ahead t env w next ≡ from_remainder env (remainder_of (over t w (counting_part part.entry)))) }
{
    match part.stage {
        Stage::Pass => pass(part, node(part.s)),
        Stage::BehindPass => behind(part, node(part.s)),
        Stage::NextPass => next(part, node(part.s), alloc),
    }
}

/// The statement of a `for`, and the `for` behind it.
#[inline(always)]
fn pass<'t>(part: Counting<'t>, found: Option<&'t Stmt>) -> Option<Resumed<'t>>
    requires { node_view (option_copied found) ≡ stmt_at part.s }
    ensures { IfSome result (λ next. (t : Tables) (env : Known) (w : Waiting) →
        resumed_ahead t env w next ≡ from_remainder env (counting_of part.entry.n (stmt_at part.entry.s) part.entry.count pass_over (remainder_of w))) }
{
    let Some(Stmt::For(_, _, _, _, pass, _, _)) = found else {
        return None
    };
    Some(Resumed {
        line: 0,
        over: Some(at_stage(part.n, part.s, part.count, Stage::BehindPass)),
        near: Near::Stmt(part.n, OneStmt::Alone(pass)),
    })
}

/// Behind the statement of a `for`: nothing more where the kept value is the last, else a turn to the next value.
#[inline(always)]
fn behind<'t>(part: Counting<'t>, found: Option<&'t Stmt>) -> Option<Resumed<'t>>
    requires { node_view (option_copied found) ≡ stmt_at part.s }
    ensures { IfSome result (λ next. (t : Tables) (env : Known) (w : Waiting) →
        resumed_ahead t env w next ≡ from_remainder env (counting_of part.entry.n (stmt_at part.entry.s) part.entry.count behind_pass (remainder_of w))) }
{
    let Some(Stmt::For(_, _, down, _, _, place, _)) = found else {
        return None
    };
    if part.count.kept == part.count.last {
        return Some(Resumed {
            line: 0,
            over: None,
            near: Near::Rest,
        });
    }
    let count = following(part.count, *down)?;
    Some(Resumed {
        line: place.line,
        over: Some(at_stage(part.n, part.s, count, Stage::NextPass)),
        near: Near::Turns,
    })
}

/// The count with its next value.
#[inline(always)]
fn following(count: Count, down: bool) -> Option<Count>
    ensures { IfSome result (λ f. f ≡ record count { kept = next_kept down count.kept }) }
{
    let next = if down {
        count.kept.checked_sub(1)
    } else {
        count.kept.checked_add(1)
    };
    match next {
        Some(kept) => Some(Count { kept, ..count }),
        None => None,
    }
}

/// A `for` whose next value is to be written, and behind that the `for` with its statement.
#[inline(always)]
fn next<'t>(part: Counting<'t>, found: Option<&'t Stmt>, alloc: Global) -> Option<Resumed<'t>>
    requires { node_view (option_copied found) ≡ stmt_at part.s }
    ensures { IfSome result (λ next. (t : Tables) (env : Known) (w : Waiting) →
        resumed_ahead t env w next ≡ from_remainder env (counting_of part.entry.n (stmt_at part.entry.s) part.entry.count next_pass (remainder_of w))) }
{
    let Some(Stmt::For(_, _, _, _, _, place, _)) = found else {
        return None
    };
    Some(Resumed {
        line: place.line,
        over: Some(at_stage(part.n, part.s, part.count, Stage::Pass)),
        near: Near::Writes(counted(part.count.at, alloc), part.count.kept),
    })
}

/// The variable of a `for`.
#[inline(always)]
fn counted(at: Counter, alloc: Global) -> Spot
    ensures { spot_view result ≡ counter_view at }
{
    Spot {
        scope: at.scope,
        variable: at.variable,
        selectors: Vec::new(alloc),
    }
}
