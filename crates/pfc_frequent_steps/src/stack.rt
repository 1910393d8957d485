//! The innermost part that is pending is taken, or one is put there.
ghost use Rattle.std.specs.Prelude.{◌≡◌, ◌-◌, Some, length, slice_get, IfSome};
ghost use Rattle.pfc_program.specs.declared.tables.Tables.{Tables};
ghost use Rattle.pfc_semantics.specs.Remainders.{Context};
ghost use Rattle.pfc_pending.specs.Waiting.{over, waiting};
ghost use Rattle.pfc_frequent_steps.specs.Near.{behind_over, behind_part, near_ahead, next_ahead, tested_part, waits_over, waits_part, HasRoom};

use crate::near::{Behind, Near, Next, Test, Tested, Waits};
use pfc_frequent_parts::put_index;
use pfc_pending::{Goal, Pending, Point};
use std::mem;

/// A part that waits for a number, None where it is none of these. The target of an assignment is not looked at here, since it is no plain
/// value.
#[inline(always)]
fn waits_of<'t>(part: &Pending<'t>) -> Option<Waits<'t>>
    ensures { IfSome result (λ x. waits_part x ≡ part.now) }
{
    match part {
        Pending::BeginSum(sign, rest) => Some(Waits::BeginSum(*sign, *rest)),
        Pending::AddTo(n, op, rest) => Some(Waits::AddTo(*n, *op, *rest)),
        Pending::BeginProduct(rest) => Some(Waits::BeginProduct(*rest)),
        Pending::MultiplyBy(n, op, rest) => Some(Waits::MultiplyBy(*n, *op, *rest)),
        Pending::CompareWith(relation, right) => Some(Waits::CompareWith(*relation, *right)),
        Pending::CompareTo(n, relation) => Some(Waits::CompareTo(*n, *relation)),
        _ => None,
    }
}

/// A part that stands behind a statement, None where it is none of these.
#[inline(always)]
fn behind_of<'t>(part: &Pending<'t>) -> Option<Behind<'t>>
    ensures { IfSome result (λ x. behind_part x ≡ part.now) }
{
    match part {
        Pending::Ends(line) => Some(Behind::Ends(*line)),
        Pending::Perform(n, ss) => Some(Behind::Perform(*n, *ss)),
        Pending::Within(n, s, Point::Turn) => Some(Behind::Turn(*n, *s)),
        Pending::Within(n, s, Point::Again) => Some(Behind::Again(*n, *s)),
        Pending::Within(n, s, Point::Until) => Some(Behind::Until(*n, *s)),
        _ => None,
    }
}

/// The innermost part that is pending, None where it is none that waits for a number, or the target of an assignment.
#[inline(always)]
fn last_waits<'t>(pending: &Vec<Pending<'t>>) -> Option<Waits<'t>>
    ensures { IfSome result (λ x. Some (waits_part x) ≡ slice_get pending.now.items (length pending.now.items - 1)) }
{
    match pending.last() {
        Some(part) => waits_of(part),
        None => None,
    }
}

/// The innermost part that is pending, None where it is none that stands behind a statement.
#[inline(always)]
fn last_behind<'t>(pending: &Vec<Pending<'t>>) -> Option<Behind<'t>>
    ensures { IfSome result (λ x. Some (behind_part x) ≡ slice_get pending.now.items (length pending.now.items - 1)) }
{
    match pending.last() {
        Some(part) => behind_of(part),
        None => None,
    }
}

/// Whether the innermost part that is pending is the target of an assignment.
#[inline(always)]
fn is_target(pending: &Vec<Pending>) -> bool {
    matches!(pending.last(), Some(Pending::StoreAt(_)))
}

/// Takes the innermost part that is pending where it waits for a number; else all is as it was.
#[tactic(auto, using(crate::proofs::Taken::taken))]
#[inline(always)]
pub(crate) fn take_waits<'t>(pending: &mut Vec<Pending<'t>>) -> Option<Waits<'t>>
    requires { HasRoom pending.old }
    ensures taken { (t : Tables) → waits_over t (waiting t pending.new.items) result ≡ waiting t pending.old.items }
    ensures room { HasRoom pending.new }
{
    match last_waits(pending) {
        Some(part) => {
            mem::forget(pending.pop());
            Some(part)
        }
        None => {
            if is_target(pending) {
                take_target(pending)
            } else {
                None
            }
        }
    }
}

/// The same of the target of an assignment.
#[tactic(auto, using(crate::proofs::Waiting::parts))]
#[inline(never)]
fn take_target<'t>(pending: &mut Vec<Pending<'t>>) -> Option<Waits<'t>>
    requires { HasRoom pending.old }
    ensures taken { (t : Tables) → waits_over t (waiting t pending.new.items) result ≡ waiting t pending.old.items }
    ensures room { HasRoom pending.new }
{
    match pending.pop() {
        Some(Pending::StoreAt(spot)) => Some(Waits::StoreAt(spot)),
        Some(part) => {
            pending.push_reserved(part);
            None
        }
        None => None,
    }
}

/// Takes the innermost part that is pending where it stands behind a statement; else all is as it was.
#[tactic(auto, using(crate::proofs::Taken::taken))]
#[inline(always)]
pub(crate) fn take_behind<'t>(pending: &mut Vec<Pending<'t>>) -> Option<Behind<'t>>
    requires { HasRoom pending.old }
    ensures taken { (t : Tables) → behind_over t (waiting t pending.new.items) result ≡ waiting t pending.old.items }
    ensures room { HasRoom pending.new }
{
    match last_behind(pending) {
        Some(part) => {
            mem::forget(pending.pop());
            Some(part)
        }
        None => None,
    }
}

/// Puts a part that waits for a number among those that are pending, in room that was taken before.
#[tactic(auto, using(crate::proofs::Waiting::parts))]
#[inline(always)]
fn put_waits<'t>(pending: &mut Vec<Pending<'t>>, part: Waits<'t>)
    requires { HasRoom pending.old }
    ensures { (t : Tables) → waiting t pending.new.items ≡ over t (waiting t pending.old.items) (waits_part part.entry) }
{
    match part {
        Waits::BeginSum(sign, rest) => pending.push_reserved(Pending::BeginSum(sign, rest)),
        Waits::AddTo(n, op, rest) => pending.push_reserved(Pending::AddTo(n, op, rest)),
        Waits::BeginProduct(rest) => pending.push_reserved(Pending::BeginProduct(rest)),
        Waits::MultiplyBy(n, op, rest) => pending.push_reserved(Pending::MultiplyBy(n, op, rest)),
        Waits::CompareWith(relation, right) => {
            pending.push_reserved(Pending::CompareWith(relation, right))
        }
        Waits::CompareTo(n, relation) => pending.push_reserved(Pending::CompareTo(n, relation)),
        Waits::StoreAt(spot) => pending.push_reserved(Pending::StoreAt(spot)),
    }
}

/// Puts a part that stands behind a statement among those that are pending, in room that was taken before.
#[tactic(auto, using(crate::proofs::Waiting::parts))]
#[inline(always)]
fn put_behind<'t>(pending: &mut Vec<Pending<'t>>, part: Behind<'t>)
    requires { HasRoom pending.old }
    ensures { (t : Tables) → waiting t pending.new.items ≡ over t (waiting t pending.old.items) (behind_part part.entry) }
{
    match part {
        Behind::Ends(line) => pending.push_reserved(Pending::Ends(line)),
        Behind::Perform(n, ss) => pending.push_reserved(Pending::Perform(n, ss)),
        Behind::Turn(n, s) => pending.push_reserved(Pending::Within(n, s, Point::Turn)),
        Behind::Again(n, s) => pending.push_reserved(Pending::Within(n, s, Point::Again)),
        Behind::Until(n, s) => pending.push_reserved(Pending::Within(n, s, Point::Until)),
    }
}

/// Puts a test among those that are pending, in room that was taken before.
#[tactic(auto, using(crate::proofs::Waiting::parts))]
#[inline(always)]
fn put_test<'t>(pending: &mut Vec<Pending<'t>>, part: Tested<'t>)
    requires { HasRoom pending.old }
    ensures { (t : Tables) → waiting t pending.new.items ≡ over t (waiting t pending.old.items) (tested_part part.entry) }
{
    match part.test {
        Test::Choose => pending.push_reserved(Pending::Within(part.n, part.s, Point::Choose)),
        Test::ChooseArm => pending.push_reserved(Pending::Within(part.n, part.s, Point::ChooseArm)),
        Test::WhileTrue => pending.push_reserved(Pending::Within(part.n, part.s, Point::WhileTrue)),
        Test::UntilTrue => pending.push_reserved(Pending::Within(part.n, part.s, Point::UntilTrue)),
    }
}

/// Goes on with a step, in room that was taken before for the one part that it may put among those that are pending.
#[inline(always)]
pub(crate) fn go_on<'t>(pending: &mut Vec<Pending<'t>>, next: Next<'t>) -> Near<'t>
    requires { HasRoom pending.old }
    ensures { (t : Tables) (c : Context) → near_ahead t c (waiting t pending.new.items) result ≡ next_ahead t c (waiting t pending.old.items) next.entry }
{
    match next {
        Next::On(near) => near,
        Next::Over(part, near) => {
            put_waits(pending, part);
            near
        }
        Next::Ahead(part, near) => {
            put_behind(pending, part);
            near
        }
        Next::Tests(part, near) => {
            put_test(pending, part);
            near
        }
        Next::ToRead(element) => {
            let index = put_index(pending, element, Goal::Read);
            Near::Expr(index)
        }
        Next::ToAssign(element, value) => {
            let index = put_index(pending, element, Goal::AssignTo(value));
            Near::Expr(index)
        }
    }
}
