//! Expressions, taken apart one part at a time.
ghost use Rattle.std.specs.Prelude.{◌≡◌, ℕ, Some, None};
ghost use Rattle.pfc_tree.specs.views.Exprs.{simple_view, term_view, factor_view, summands_view, multipliers_view};
ghost use Rattle.pfc_tree.specs.trees.Exprs as trees;
ghost use Rattle.pfc_program.specs.declared.tables.Tables.{Tables};
ghost use Rattle.pfc_semantics.specs.Expressions.{from_expr, from_simple, from_summands, from_multipliers};
ghost use Rattle.pfc_semantics.specs.Rewriting.{from_value};
ghost use Rattle.pfc_semantics.specs.Remainders.{Context};
ghost use Rattle.pfc_semantics.specs.Values.{ordinal};
ghost use Rattle.pfc_pending.specs.Ahead.{ahead};
ghost use Rattle.pfc_pending.specs.Waiting.{Waiting, awaits_of};
ghost use Rattle.pfc_pending.specs.declared.at_hand.At.TheVariants as at;
ghost use Rattle.pfc_frequent_steps.specs.Near.{next_ahead};

use crate::near::{Near, Next, Waits};
use pfc_base::Place;
use pfc_tree::{AddOp, Expr, Factor, MulOp, Relation, Sign, Simple, Term};

/// The left side of an expression, over the right one; or the only one, which is taken apart at once.
#[inline(always)]
pub(crate) fn expr<'t>(e: &'t Expr) -> Next<'t>
    ensures { (t : Tables) (c : Context) (w : Waiting) → next_ahead t c w result ≡ ahead t c w (at.Expr e.entry) }
{
    match &e.right {
        Some((op, right)) => related(&e.left, *op, right, e.place),
        None => simple(&e.left),
    }
}

#[tactic(auto, using(crate::proofs::Rules::rules))]
#[inline(always)]
fn related<'t>(
    left: &'t Simple,
    op: (Relation, Place),
    right: &'t Simple,
    _place: Place,
) -> Next<'t>
    ensures { (t : Tables) (c : Context) (w : Waiting) → next_ahead t c w result
        ≡ from_expr c (trees.related (simple_view left.now) op (simple_view right.now) _place) (awaits_of w) (from_value c (awaits_of w)) }
{
    Next::Over(Waits::CompareWith(op.0, right), Near::Simple(left))
}

/// A sum: its first term, under the sign and the terms behind it where there are any.
#[inline(always)]
pub(crate) fn simple<'t>(s: &'t Simple) -> Next<'t>
    ensures { (t : Tables) (c : Context) (w : Waiting) → next_ahead t c w result ≡ ahead t c w (at.Simple s.entry) }
{
    match s.sign {
        None => unsigned(&s.first, s.rest.as_slice()),
        Some(sign) => signed(sign, &s.first, s.rest.as_slice()),
    }
}

/// A sum without a sign; a term alone is taken apart at once.
#[tactic(auto, using(crate::proofs::Firsts::sums))]
#[inline(always)]
fn unsigned<'t>(first: &'t Term, rest: &'t [((AddOp, Place), Term)]) -> Next<'t>
    ensures { (t : Tables) (c : Context) (w : Waiting) → next_ahead t c w result
        ≡ from_simple c (trees.sum None (term_view first.now) (summands_view rest.now)) (awaits_of w) (from_value c (awaits_of w)) }
{
    match rest {
        [] => term(first),
        _ => Next::Over(Waits::BeginSum(None, rest), Near::Term(first)),
    }
}

/// A sum with a sign.
#[tactic(auto, using(crate::proofs::Rules::rules))]
#[inline(always)]
fn signed<'t>(sign: (Sign, Place), first: &'t Term, rest: &'t [((AddOp, Place), Term)]) -> Next<'t>
    ensures { (t : Tables) (c : Context) (w : Waiting) → next_ahead t c w result
        ≡ from_simple c (trees.sum (Some sign) (term_view first.now) (summands_view rest.now)) (awaits_of w) (from_value c (awaits_of w)) }
{
    Next::Over(Waits::BeginSum(Some(sign), rest), Near::Term(first))
}

/// The terms behind a sum so far.
#[inline(always)]
pub(crate) fn summands<'t>(sum: i64, rest: &'t [((AddOp, Place), Term)]) -> Next<'t>
    ensures { (t : Tables) (c : Context) (w : Waiting) → next_ahead t c w result
        ≡ from_summands c (ordinal sum) (summands_view rest.now) (awaits_of w) (from_value c (awaits_of w)) }
{
    match rest {
        [] => Next::On(Near::Number(sum)),
        [first, behind @ ..] => add(sum, first.0, &first.1, behind),
    }
}

#[tactic(auto, using(crate::proofs::Rules::rules))]
#[inline(always)]
fn add<'t>(
    sum: i64,
    op: (AddOp, Place),
    term: &'t Term,
    rest: &'t [((AddOp, Place), Term)],
) -> Next<'t>
    ensures { (t : Tables) (c : Context) (w : Waiting) → next_ahead t c w result
        ≡ from_summands c (ordinal sum) (trees.more_summands op (term_view term.now) (summands_view rest.now)) (awaits_of w) (from_value c (awaits_of w)) }
{
    Next::Over(Waits::AddTo(sum, op.0, rest), Near::Term(term))
}

/// A product: its first factor, under the factors behind it where there are any.
#[inline(always)]
pub(crate) fn term<'t>(product: &'t Term) -> Next<'t>
    ensures { (t : Tables) (c : Context) (w : Waiting) → next_ahead t c w result ≡ ahead t c w (at.Term product.entry) }
{
    match product.rest.as_slice() {
        [] => Next::On(Near::Factor(&product.first)),
        rest => Next::Over(Waits::BeginProduct(rest), Near::Factor(&product.first)),
    }
}

/// The factors behind a product so far.
#[inline(always)]
pub(crate) fn multipliers<'t>(product: i64, rest: &'t [((MulOp, Place), Factor)]) -> Next<'t>
    ensures { (t : Tables) (c : Context) (w : Waiting) → next_ahead t c w result
        ≡ from_multipliers c (ordinal product) (multipliers_view rest.now) (awaits_of w) (from_value c (awaits_of w)) }
{
    match rest {
        [] => Next::On(Near::Number(product)),
        [first, behind @ ..] => multiply(product, first.0, &first.1, behind),
    }
}

#[tactic(auto, using(crate::proofs::Rules::rules))]
#[inline(always)]
fn multiply<'t>(
    product: i64,
    op: (MulOp, Place),
    factor: &'t Factor,
    rest: &'t [((MulOp, Place), Factor)],
) -> Next<'t>
    ensures { (t : Tables) (c : Context) (w : Waiting) → next_ahead t c w result
        ≡ from_multipliers c (ordinal product) (trees.more_multipliers op (factor_view factor.now) (multipliers_view rest.now)) (awaits_of w) (from_value c
        (awaits_of w)) }
{
    Next::Over(Waits::MultiplyBy(product, op.0, rest), Near::Factor(factor))
}
