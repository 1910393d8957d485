//! A number meets the part that waits for it.
ghost use Rattle.std.specs.Prelude.{◌≡◌};
ghost use Rattle.pfc_tree.specs.views.Exprs.{simple_view, summands_view, multipliers_view};
ghost use Rattle.pfc_program.specs.declared.tables.Tables.{Tables};
ghost use Rattle.pfc_semantics.specs.Remainders as remainders;
ghost use Rattle.pfc_semantics.specs.Remainders.{Context};
ghost use Rattle.pfc_semantics.specs.Rewriting.{from_value};
ghost use Rattle.pfc_semantics.specs.Values.{ordinal};
ghost use Rattle.pfc_pending.specs.Waiting.{Waiting, awaits_of, over};
ghost use Rattle.pfc_frequent_steps.specs.Near.{next_ahead, waits_part};

use crate::expressions::{multipliers, summands};
use crate::near::{Near, Next, Waits};
use crate::operators::{added, compared, multiplied, signed};
use pfc_base::Place;
use pfc_tree::{AddOp, Factor, MulOp, Relation, Sign, Simple, Term};

/// A number meets the part that waits for it.
#[inline(always)]
pub(crate) fn meet<'t>(part: Waits<'t>, v: i64) -> Next<'t>
    ensures { (t : Tables) (c : Context) (w : Waiting) → next_ahead t c w result ≡ from_value c (awaits_of (over t w (waits_part part.entry))) (ordinal v) }
{
    match part {
        Waits::BeginSum(sign, rest) => begin_sum(sign, rest, v),
        Waits::AddTo(n, op, rest) => add_to(n, op, rest, v),
        Waits::BeginProduct(rest) => multipliers(v, rest),
        Waits::MultiplyBy(n, op, rest) => multiply_by(n, op, rest, v),
        Waits::CompareWith(relation, right) => compare_with(relation, right, v),
        Waits::CompareTo(n, relation) => compare_to(n, relation, v),
        Waits::StoreAt(spot) => Next::On(Near::Writes(spot, v)),
    }
}

/// The first term of a sum.
#[tactic(auto, using(crate::proofs::Rules::values))]
#[inline(always)]
fn begin_sum<'t>(
    sign: Option<(Sign, Place)>,
    rest: &'t [((AddOp, Place), Term)],
    v: i64,
) -> Next<'t>
    ensures { (t : Tables) (c : Context) (w : Waiting) → next_ahead t c w result
        ≡ from_value c (remainders.begin_sum sign (summands_view rest.now) (awaits_of w)) (ordinal v) }
{
    match signed(sign, v) {
        Ok(n) => summands(n, rest),
        Err(fault) => Next::On(Near::Faults(fault)),
    }
}

/// The right operand of a sum.
#[tactic(auto, using(crate::proofs::Rules::values))]
#[inline(always)]
fn add_to<'t>(n: i64, op: AddOp, rest: &'t [((AddOp, Place), Term)], v: i64) -> Next<'t>
    ensures { (t : Tables) (c : Context) (w : Waiting) → next_ahead t c w result
        ≡ from_value c (remainders.add_to n op (summands_view rest.now) (awaits_of w)) (ordinal v) }
{
    match added(op, n, v) {
        Ok(sum) => summands(sum, rest),
        Err(fault) => Next::On(Near::Faults(fault)),
    }
}

/// The right operand of a product.
#[tactic(auto, using(crate::proofs::Rules::values))]
#[inline(always)]
fn multiply_by<'t>(n: i64, op: MulOp, rest: &'t [((MulOp, Place), Factor)], v: i64) -> Next<'t>
    ensures { (t : Tables) (c : Context) (w : Waiting) → next_ahead t c w result
        ≡ from_value c (remainders.multiply_by n op (multipliers_view rest.now) (awaits_of w)) (ordinal v) }
{
    match multiplied(op, n, v) {
        Ok(product) => multipliers(product, rest),
        Err(fault) => Next::On(Near::Faults(fault)),
    }
}

/// The left side of a relation.
#[tactic(auto, using(crate::proofs::Rules::values))]
#[inline(always)]
fn compare_with<'t>(relation: Relation, right: &'t Simple, v: i64) -> Next<'t>
    ensures { (t : Tables) (c : Context) (w : Waiting) → next_ahead t c w result
        ≡ from_value c (remainders.compare_with relation (simple_view right.now) (awaits_of w)) (ordinal v) }
{
    Next::Over(Waits::CompareTo(v, relation), Near::Simple(right))
}

/// The right side of a relation.
#[inline(always)]
fn compare_to<'t>(n: i64, relation: Relation, v: i64) -> Next<'t>
    ensures { (t : Tables) (c : Context) (w : Waiting) → next_ahead t c w result ≡ from_value c (remainders.compare_to n relation (awaits_of w)) (ordinal v) }
{
    Next::On(Near::Number(compared(relation, n, v)))
}
