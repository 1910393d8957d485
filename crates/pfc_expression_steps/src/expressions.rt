//! Expressions, taken apart one part at a time.
//!
//! Operands are evaluated left first, and always both. An expression that is one operand alone waits for nothing of its own, and is read at
//! once down to the factor that it is.
ghost use Rattle.std.specs.Prelude.{◌≡◌, ℕ, Some, None};
ghost use Rattle.pfc_tree.specs.views.Exprs.{simple_view, term_view, factor_view, summands_view, multipliers_view};
ghost use Rattle.pfc_program.specs.declared.tables.Tables.{Tables};
ghost use Rattle.pfc_semantics.specs.Expressions.{from_expr, from_simple, from_summands, from_multipliers};
ghost use Rattle.pfc_semantics.specs.Rewriting.{from_value};
ghost use Rattle.pfc_semantics.specs.Remainders.{Context};
ghost use Rattle.pfc_semantics.specs.Alternatives.{context};
ghost use Rattle.pfc_phrases.specs.Views.{env_view};
ghost use Rattle.pfc_store.specs.Views.{value_view};
ghost use Rattle.pfc_tree.specs.trees.Exprs as trees;
ghost use Rattle.pfc_pending.specs.Ahead.{ahead, step_ahead};
ghost use Rattle.pfc_pending.specs.Waiting.{Waiting, awaits_of};
ghost use Rattle.pfc_pending.specs.declared.at_hand.At.TheVariants as at;

use crate::factors::factor;
use pfc_base::Place;
use pfc_pending::{At, Pending, Step};
use pfc_sites::Site;
use pfc_store::Value;
use pfc_tree::{AddOp, Expr, Factor, MulOp, Relation, Sign, Simple, Term};

/// An expression: its left side, or the only one, which is read at once.
#[inline(always)]
pub fn expr<'t>(e: &'t Expr, site: Site<'t, '_>) -> Step<'t>
    ensures { (t : Tables) (line : ℕ) (w : Waiting) → let c =
        context (env_view site.entry.env) line in step_ahead t c w result ≡ ahead t c w (at.Expr e.entry) }
{
    match sides(e) {
        Step::On(At::Simple(only)) => simple(only, site),
        step => step,
    }
}

/// The left side of an expression, over the right one; or the only one.
#[inline(always)]
fn sides<'a>(e: &'a Expr) -> Step<'a>
    ensures { (t : Tables) (c : Context) (w : Waiting) → step_ahead t c w result ≡ ahead t c w (at.Expr e.entry) }
{
    match &e.right {
        Some((op, right)) => related(&e.left, *op, right, e.place),
        None => Step::On(At::Simple(&e.left)),
    }
}

#[tactic(auto, using(crate::proofs::Rules::rules))]
#[inline(always)]
fn related<'a>(
    left: &'a Simple,
    op: (Relation, Place),
    right: &'a Simple,
    _place: Place,
) -> Step<'a>
    ensures { (t : Tables) (c : Context) (w : Waiting) → step_ahead t c w result
        ≡ from_expr c (trees.related (simple_view left.now) op (simple_view right.now) _place) (awaits_of w) (from_value c (awaits_of w)) }
{
    Step::Under(Pending::CompareWith(op.0, right), At::Simple(left))
}

/// A sum: its first term, under the sign and the terms behind it where there are any.
#[inline(always)]
pub fn simple<'t>(s: &'t Simple, site: Site<'t, '_>) -> Step<'t>
    ensures { (t : Tables) (line : ℕ) (w : Waiting) → let c =
        context (env_view site.entry.env) line in step_ahead t c w result ≡ ahead t c w (at.Simple s.entry) }
{
    match s.sign {
        None => unsigned(&s.first, s.rest.as_slice(), site),
        Some(sign) => signed(sign, &s.first, s.rest.as_slice()),
    }
}

/// A sum without a sign.
#[tactic(auto, using(crate::proofs::Firsts::sums))]
#[inline(always)]
fn unsigned<'t>(first: &'t Term, rest: &'t [((AddOp, Place), Term)], site: Site<'t, '_>) -> Step<'t>
    ensures { (t : Tables) (line : ℕ) (w : Waiting) → let c = context (env_view site.entry.env) line in step_ahead t c w result ≡ from_simple c
        (trees.sum None (term_view first.now) (summands_view rest.now)) (awaits_of w) (from_value c (awaits_of w)) }
{
    match rest {
        [] => term(first, site),
        _ => Step::Under(Pending::BeginSum(None, rest), At::Term(first)),
    }
}

/// A sum with a sign.
#[tactic(auto, using(crate::proofs::Rules::rules))]
#[inline(always)]
fn signed<'a>(sign: (Sign, Place), first: &'a Term, rest: &'a [((AddOp, Place), Term)]) -> Step<'a>
    ensures { (t : Tables) (c : Context) (w : Waiting) →
        step_ahead t c w result ≡ from_simple c (trees.sum (Some sign) (term_view first.now) (summands_view rest.now))
        (awaits_of w) (from_value c (awaits_of w)) }
{
    Step::Under(Pending::BeginSum(Some(sign), rest), At::Term(first))
}

/// The terms behind a sum so far.
#[inline(always)]
pub fn summands<'a>(sum: Value, rest: &'a [((AddOp, Place), Term)]) -> Step<'a>
    ensures { (t : Tables) (c : Context) (w : Waiting) → step_ahead t c w result ≡ ahead t c w (at.Summands sum rest.entry) }
{
    match rest {
        [] => Step::On(At::Value(sum)),
        [first, behind @ ..] => add(sum, first.0, &first.1, behind),
    }
}

#[tactic(auto, using(crate::proofs::Rules::rules))]
#[inline(always)]
fn add<'a>(
    sum: Value,
    op: (AddOp, Place),
    term: &'a Term,
    rest: &'a [((AddOp, Place), Term)],
) -> Step<'a>
    ensures { (t : Tables) (c : Context) (w : Waiting) → step_ahead t c w result
        ≡ from_summands c (value_view sum) (trees.more_summands op (term_view term.now) (summands_view rest.now)) (awaits_of w) (from_value c (awaits_of w)) }
{
    Step::Under(Pending::AddTo(sum.ordinal(), op.0, rest), At::Term(term))
}

/// A product: its first factor, under the factors behind it where there are any.
#[inline(always)]
pub fn term<'t>(t: &'t Term, site: Site<'t, '_>) -> Step<'t>
    ensures { (tables : Tables) (line : ℕ) (w : Waiting) → let c =
        context (env_view site.entry.env) line in step_ahead tables c w result ≡ ahead tables c w (at.Term t.entry) }
{
    match t.rest.as_slice() {
        [] => factor(&t.first, site),
        rest => Step::Under(Pending::BeginProduct(rest), At::Factor(&t.first)),
    }
}

/// The factors behind a product so far.
#[inline(always)]
pub fn multipliers<'a>(product: Value, rest: &'a [((MulOp, Place), Factor)]) -> Step<'a>
    ensures { (t : Tables) (c : Context) (w : Waiting) → step_ahead t c w result ≡ ahead t c w (at.Multipliers product rest.entry) }
{
    match rest {
        [] => Step::On(At::Value(product)),
        [first, behind @ ..] => multiply(product, first.0, &first.1, behind),
    }
}

#[tactic(auto, using(crate::proofs::Rules::rules))]
#[inline(always)]
fn multiply<'a>(
    product: Value,
    op: (MulOp, Place),
    factor: &'a Factor,
    rest: &'a [((MulOp, Place), Factor)],
) -> Step<'a>
    ensures { (t : Tables) (c : Context) (w : Waiting) → step_ahead t c w result
        ≡ from_multipliers c (value_view product) (trees.more_multipliers op (factor_view factor.now) (multipliers_view rest.now)) (awaits_of w)
        (from_value c (awaits_of w)) }
{
    Step::Under(
        Pending::MultiplyBy(product.ordinal(), op.0, rest),
        At::Factor(factor),
    )
}
