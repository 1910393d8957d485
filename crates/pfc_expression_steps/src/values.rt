//! Values: each meets what waits for it in an expression or in a simple statement.
ghost use Rattle.std.specs.Prelude.{◌≡◌, ℕ, true, OnOk};
ghost use Rattle.pfc_tree.specs.views.Exprs.{expr_view, simple_view, summands_view, multipliers_view, exprs_view, selectors_view};
ghost use Rattle.pfc_program.specs.declared.tables.Tables.{Tables};
ghost use Rattle.pfc_semantics.specs.Remainders as remainders;
ghost use Rattle.pfc_semantics.specs.Remainders.{Context};
ghost use Rattle.pfc_semantics.specs.Alternatives.{context};
ghost use Rattle.pfc_semantics.specs.Expressions.{with_number};
ghost use Rattle.pfc_semantics.specs.Statements.{shown_as};
ghost use Rattle.pfc_semantics.specs.Rewriting.{from_value};
ghost use Rattle.pfc_facts.specs.Views.{function_view};
ghost use Rattle.pfc_phrases.specs.Views.{env_view};
ghost use Rattle.pfc_store.specs.Views.{typed_spot_view, value_view, HasRoom};
ghost use Rattle.pfc_pending.specs.Ahead.{step_ahead};
ghost use Rattle.pfc_pending.specs.Pieces.{piece_bytes};
ghost use Rattle.pfc_pending.specs.Waiting.{Waiting, awaits_of, remainder_of, goal_over, over};
ghost use Rattle.pfc_expression_steps.specs.Ahead.{is_of_call, is_of_expression as belongs, HasRoomFor};

use crate::elements::element;
use crate::expressions::{multipliers, summands};
use crate::operators::{added, applied, compared, multiplied, signed};
use crate::passing::{give, reserve_argument};
use pfc_base::{Memory, Place, RunFault};
use pfc_facts::{Function, simple_of};
use pfc_pending::{Argument, At, Deed, Goal, Offer, Pending, Piece, Step};
use pfc_sites::Site;
use pfc_store::{TypedSpot, Value};
use pfc_tree::{AddOp, Expr, Factor, MulOp, Relation, Selector, Sign, Simple, Term};
use pfc_types::TypeId;
use pfc_values::inverse;

/// Whether a part waits for a value in an expression or in a simple statement.
#[inline(always)]
pub fn is_of_expression(part: &Pending) -> bool
    ensures { result ≡ belongs part.now }
{
    match part {
        Pending::BeginSum(_, _)
        | Pending::AddTo(_, _, _)
        | Pending::BeginProduct(_)
        | Pending::MultiplyBy(_, _, _)
        | Pending::CompareWith(_, _)
        | Pending::CompareTo(_, _)
        | Pending::Invert
        | Pending::Apply(_, _)
        | Pending::IndexInto(_, _, _, _)
        | Pending::PassValue(_)
        | Pending::StoreAt(_)
        | Pending::Show(_)
        | Pending::ShowWide(_, _)
        | Pending::Pad(_)
        | Pending::SetCount(_)
        | Pending::DelayWith(_)
        | Pending::SleepFor
        | Pending::SendOn(_) => true,
        Pending::Ends(_)
        | Pending::Perform(_, _)
        | Pending::InNames(_)
        | Pending::WriteOn(_, _, _)
        | Pending::ReadOn(_, _, _)
        | Pending::AtCoend(_)
        | Pending::PartFrom(_, _)
        | Pending::WriteAgain(_)
        | Pending::GoThrough(_, _)
        | Pending::TryGuard(_)
        | Pending::ScanOn(_)
        | Pending::TryOther(_, _)
        | Pending::Within(_, _, _)
        | Pending::OpenIf(_)
        | Pending::OfferValue(_, _)
        | Pending::OfferWait(_)
        | Pending::PassOwn(_)
        | Pending::PassOther(_, _) => false,
    }
}

/// Takes the memory that a part needs for the value that it waits for. Its only refusal is want of memory; the part stands for the same in
/// any case.
#[inline(always)]
pub fn reserve(part: &mut Pending) -> Result<(), Memory>
    ensures same { (t : Tables) (w : Waiting) → over t w part.new ≡ over t w part.old }
    ensures kind { belongs part.new ≡ belongs part.old }
    ensures room { OnOk result (HasRoomFor part.new) }
{
    match part {
        Pending::IndexInto(spot, _, _, _) => spot.spot.reserve_step(),
        Pending::PassValue(p) => reserve_argument(&mut p.given),
        _ => Ok(()),
    }
}

/// A value meets the part that waits for it, for which memory was taken before. It takes none.
#[inline(always)]
pub fn arrive<'t>(part: Pending<'t>, v: Value, site: Site<'t, '_>) -> Step<'t>
    requires here { belongs part ≡ true }
    requires room { HasRoomFor part }
    ensures { (t : Tables) (line : ℕ) (w : Waiting) → let c = context (env_view site.entry.env) line in
        step_ahead t c w result ≡ from_value c (awaits_of (over t w part.entry)) (value_view v) }
{
    match part {
        Pending::BeginSum(sign, rest) => begin_sum(sign, rest, v),
        Pending::AddTo(n, op, rest) => add_to(n, op, rest, v),
        Pending::BeginProduct(rest) => multipliers(v, rest),
        Pending::MultiplyBy(n, op, rest) => multiply_by(n, op, rest, v),
        Pending::CompareWith(relation, right) => compare_with(relation, right, v),
        Pending::CompareTo(n, relation) => compare_to(n, relation, v),
        Pending::Invert => invert(v),
        Pending::IndexInto(spot, es, ss, goal) => index_into(spot, es, ss, goal, v, site),
        Pending::PassValue(p) => Step::On(give(p, Argument::Value(v))),
        Pending::StoreAt(spot) => Step::On(At::Deed(Deed::Writes(spot, v))),
        part => arrive_in_call(part, v),
    }
}

/// The same of what waits in a call of a predeclared function or procedure, or in a `!`.
#[inline(never)]
fn arrive_in_call<'t>(part: Pending<'t>, v: Value) -> Step<'t>
    requires { is_of_call part ≡ true }
    ensures { (t : Tables) (c : Context) (w : Waiting) → step_ahead t c w result ≡ from_value c (awaits_of (over t w part.entry)) (value_view v) }
{
    match part {
        Pending::Apply(f, t) => finish(f, t, v),
        Pending::Show(t) => show(t, v),
        Pending::ShowWide(t, width) => show_wide(t, width, v),
        Pending::Pad(piece) => pad(piece, v),
        Pending::SetCount(spot) => Step::On(At::Deed(Deed::Initials(spot, v.ordinal()))),
        Pending::DelayWith(spot) => Step::On(At::Deed(Deed::Delays(spot, v.ordinal()))),
        Pending::SleepFor => Step::On(At::Deed(Deed::Sleeps(v.ordinal()))),
        Pending::SendOn(channel) => Step::On(At::Deed(Deed::Meets(Offer::Send(channel, v)))),
        Pending::BeginSum(_, _)
        | Pending::AddTo(_, _, _)
        | Pending::BeginProduct(_)
        | Pending::MultiplyBy(_, _, _)
        | Pending::CompareWith(_, _)
        | Pending::CompareTo(_, _)
        | Pending::Invert
        | Pending::IndexInto(_, _, _, _)
        | Pending::PassValue(_)
        | Pending::StoreAt(_)
        | Pending::Ends(_)
        | Pending::Perform(_, _)
        | Pending::InNames(_)
        | Pending::WriteOn(_, _, _)
        | Pending::ReadOn(_, _, _)
        | Pending::AtCoend(_)
        | Pending::PartFrom(_, _)
        | Pending::WriteAgain(_)
        | Pending::GoThrough(_, _)
        | Pending::TryGuard(_)
        | Pending::ScanOn(_)
        | Pending::TryOther(_, _)
        | Pending::Within(_, _, _)
        | Pending::OpenIf(_)
        | Pending::OfferValue(_, _)
        | Pending::OfferWait(_)
        | Pending::PassOwn(_)
        | Pending::PassOther(_, _) => unreachable!(),
    }
}

/// On with a number, or the fault in which its evaluation ends.
fn number<'t>(outcome: Result<i64, RunFault>) -> Step<'t>
    ensures { (t : Tables) (c : Context) (w : Waiting) → step_ahead t c w result ≡ with_number c outcome (from_value c (awaits_of w)) }
{
    match outcome {
        Ok(n) => Step::On(At::Value(Value::of(n))),
        Err(fault) => Step::On(At::Deed(Deed::Faults(fault))),
    }
}

/// The first term of a sum.
#[tactic(auto, using(crate::proofs::Rules::values))]
#[inline(always)]
fn begin_sum<'t>(
    sign: Option<(Sign, Place)>,
    rest: &'t [((AddOp, Place), Term)],
    v: Value,
) -> Step<'t>
    ensures { (t : Tables) (c : Context) (w : Waiting) →
        step_ahead t c w result ≡ from_value c (remainders.begin_sum sign (summands_view rest.now) (awaits_of w)) (value_view v) }
{
    match signed(sign, v.ordinal()) {
        Ok(n) => summands(Value::of(n), rest),
        Err(fault) => Step::On(At::Deed(Deed::Faults(fault))),
    }
}

/// The right operand of a sum.
#[tactic(auto, using(crate::proofs::Rules::values))]
#[inline(always)]
fn add_to<'t>(n: i64, op: AddOp, rest: &'t [((AddOp, Place), Term)], v: Value) -> Step<'t>
    ensures { (t : Tables) (c : Context) (w : Waiting) →
        step_ahead t c w result ≡ from_value c (remainders.add_to n op (summands_view rest.now) (awaits_of w)) (value_view v) }
{
    match added(op, n, v.ordinal()) {
        Ok(sum) => summands(Value::of(sum), rest),
        Err(fault) => Step::On(At::Deed(Deed::Faults(fault))),
    }
}

/// The right operand of a product.
#[tactic(auto, using(crate::proofs::Rules::values))]
#[inline(always)]
fn multiply_by<'t>(n: i64, op: MulOp, rest: &'t [((MulOp, Place), Factor)], v: Value) -> Step<'t>
    ensures { (t : Tables) (c : Context) (w : Waiting) →
        step_ahead t c w result ≡ from_value c (remainders.multiply_by n op (multipliers_view rest.now) (awaits_of w)) (value_view v) }
{
    match multiplied(op, n, v.ordinal()) {
        Ok(product) => multipliers(Value::of(product), rest),
        Err(fault) => Step::On(At::Deed(Deed::Faults(fault))),
    }
}

/// The left side of a relation.
#[tactic(auto, using(crate::proofs::Rules::values))]
#[inline(always)]
fn compare_with<'t>(relation: Relation, right: &'t Simple, v: Value) -> Step<'t>
    ensures { (t : Tables) (c : Context) (w : Waiting) →
        step_ahead t c w result ≡ from_value c (remainders.compare_with relation (simple_view right.now) (awaits_of w)) (value_view v) }
{
    Step::Under(Pending::CompareTo(v.ordinal(), relation), At::Simple(right))
}

/// The right side of a relation.
#[inline(always)]
fn compare_to<'t>(n: i64, relation: Relation, v: Value) -> Step<'t>
    ensures { (t : Tables) (c : Context) (w : Waiting) →
        step_ahead t c w result ≡ from_value c (remainders.compare_to n relation (awaits_of w)) (value_view v) }
{
    Step::On(At::Value(Value::of(compared(relation, n, v.ordinal()))))
}

/// What `not` stands before.
#[inline(always)]
fn invert<'t>(v: Value) -> Step<'t>
    ensures { (t : Tables) (c : Context) (w : Waiting) → step_ahead t c w result ≡ from_value c (remainders.invert (awaits_of w)) (value_view v) }
{
    Step::On(At::Value(Value::of(inverse(v.ordinal()))))
}

/// The argument of a function.
fn finish<'t>(f: Function, t: Option<TypeId>, v: Value) -> Step<'t>
    ensures { (s : Tables) (c : Context) (w : Waiting) →
        step_ahead s c w result ≡ from_value c (remainders.apply (function_view f) t (awaits_of w)) (value_view v) }
{
    match f {
        Function::Random => Step::On(At::Deed(Deed::Draws(v.ordinal()))),
        Function::Abs
        | Function::Sqr
        | Function::Odd
        | Function::Ord
        | Function::Chr
        | Function::Succ
        | Function::Pred
        | Function::Eof
        | Function::Eoln
        | Function::Empty
        | Function::Clock
        | Function::NoFunction => number(applied(f, simple_of(t), v.ordinal())),
    }
}

/// An index: on to the element, or the fault where it is outside the bounds.
#[tactic(auto, using(crate::proofs::Rules::elements))]
#[inline(never)]
fn index_into<'t>(
    spot: TypedSpot,
    es: &'t [Expr],
    ss: &'t [Selector],
    goal: Goal<'t>,
    v: Value,
    site: Site<'t, '_>,
) -> Step<'t>
    requires { HasRoom spot.spot }
    ensures { (t : Tables) (line : ℕ) (w : Waiting) → let c = context (env_view site.entry.env) line in
        step_ahead t c w result
        ≡ from_value c (remainders.index_into (typed_spot_view spot) (exprs_view es.now) (selectors_view ss.now) (goal_over w goal.entry)) (value_view v) }
{
    match element(spot, site.env.types, v.ordinal()) {
        Some(element) => Step::On(At::Part(element, es, ss, goal)),
        None => Step::On(At::Deed(Deed::Faults(RunFault::Index))),
    }
}

/// An item of a `write`, of this type, as it is printed.
fn shown<'t>(t: Option<TypeId>, v: &Value) -> Piece<'t>
    ensures { piece_bytes result ≡ shown_as t (value_view v.now) }
{
    Piece::Shown(simple_of(t), v.ordinal())
}

/// An item of a `write`, of this type.
fn show<'t>(t: Option<TypeId>, v: Value) -> Step<'t>
    ensures { (s : Tables) (c : Context) (w : Waiting) → step_ahead s c w result ≡ from_value c (remainders.show t (remainder_of w)) (value_view v) }
{
    Step::On(At::Deed(Deed::Prints(shown(t, &v), None)))
}

/// The same, before its width.
#[tactic(auto, using(crate::proofs::Rules::values))]
fn show_wide<'t>(t: Option<TypeId>, width: &'t Expr, v: Value) -> Step<'t>
    ensures { (s : Tables) (c : Context) (w : Waiting) →
        step_ahead s c w result ≡ from_value c (remainders.show_wide t (expr_view width.now) (remainder_of w)) (value_view v) }
{
    Step::Under(Pending::Pad(shown(t, &v)), At::Expr(width))
}

/// The width of a piece.
fn pad<'t>(piece: Piece<'t>, v: Value) -> Step<'t>
    ensures { (t : Tables) (c : Context) (w : Waiting) →
        step_ahead t c w result ≡ from_value c (remainders.pad (piece_bytes piece.entry) (remainder_of w)) (value_view v) }
{
    Step::On(At::Deed(Deed::Prints(piece, Some(v.ordinal()))))
}
