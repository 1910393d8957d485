//! The reading of expressions. An expression takes one of the levels that are left, and so does a `not`.
ghost use Rattle.std.specs.Prelude.{◌≡◌, ◌<◌, ◌≤◌, zero, Bool, false, [], ◌∷◌, length, map, IfOk};
ghost use Rattle.pfc_base.specs.declared.sign.TheConstants.{CLOSE_PAREN, COMMA};
ghost use Rattle.pfc_tree.specs.trees.Exprs.{ExprTree, FactorTree};
ghost use Rattle.pfc_tree.specs.trees.Exprs as trees;
ghost use Rattle.pfc_tree.specs.views.Exprs.{actuals_of, expr_view, simple_view, term_view, factor_view, desig_view, selector_view, actual_view, actuals_view};
ghost use Rattle.pfc_grammar.specs.Heads.{as_sign, as_add_op, as_mul_op, as_selector, begins_factor, begins_expr};
ghost use Rattle.pfc_grammar.specs.placed.Reading.{Reader, bind, pure, take_as, list_of, many, many_onto};
ghost use Rattle.pfc_grammar.specs.placed.Exprs.{selector_behind, desig_behind, desig_with, actual_with, actuals_with, paren_behind, applied_behind};
ghost use Rattle.pfc_grammar.specs.placed.Exprs.{plain_factor, multiplier_behind, term_with, summand_behind, simple_behind, simple_with, expr_with, factor_at};
ghost use Rattle.pfc_grammar.specs.placed.Exprs.{expr_at};
ghost use Rattle.pfc_token_parser.specs.Giving.{Halts, Gives, sees};

use pfc_base::{Name, Place, Text, Token, sign, word};
use pfc_token_parser::{
    Halt, add_op, expect_name, expect_sign, first_place, is_word, literal, mul_op, name, number,
    plus_minus, relation, selector, sign, word,
};
use pfc_tree::{Actual, AddOp, Desig, Expr, Factor, MulOp, Relation, Selector, Sign, Simple, Term};
use std::alloc::Global;

/// Whether the first token begins a factor.
fn begins_factor(tokens: &[Token]) -> bool
    ensures { result ≡ sees begins_factor tokens.now }
{
    number(tokens).is_some()
        || literal(tokens).is_some()
        || is_word(tokens, word::NOT)
        || sign(tokens, sign::OPEN_PAREN).is_some()
        || name(tokens).is_some()
}

/// Where no level is left for an expression.
#[tactic(auto, unfolding(pfc_grammar::specs::placed::Exprs::no_expr, pfc_grammar::specs::placed::Exprs::expr_at, pfc_grammar::specs::placed::Reading::choose, pfc_grammar::specs::placed::Reading::stop, pfc_grammar::specs::placed::Reading::stop_deep))]
fn no_expr(tokens: &[Token]) -> Halt
    ensures { Halts {A = ExprTree} result (expr_at zero tokens.now) }
{
    if plus_minus(tokens).is_some() || begins_factor(tokens) {
        Halt::Deep(tokens.len())
    } else {
        Halt::Unexpected(tokens.len())
    }
}

/// `["+" | "-"]` before a term
#[tactic(auto, unfolding(pfc_grammar::specs::placed::Exprs::simple_with, pfc_grammar::specs::placed::Reading::branch))]
fn sign_before(tokens: &[Token]) -> (Option<(Sign, Place)>, &[Token])
    ensures gives { (f : Reader FactorTree) → simple_with f tokens.now ≡ simple_behind f result.0 result.1.now }
    ensures kept { length result.1.now ≤ length tokens.now }
{
    match plus_minus(tokens) {
        Some((op, rest)) => (Some(op), rest),
        None => (None, tokens),
    }
}

/// An expression where so many levels are left, of which it takes one.
#[cycle(exprs)]
#[inline(never)]
pub fn expr(levels: u8, tokens: &[Token], alloc: Global) -> Result<(Expr, &[Token]), Halt>
    ensures gives { Gives (λ r. (expr_view r.0, r.1.now)) result (expr_at levels tokens.now) }
    ensures kept { IfOk result (λ r. length r.1.now < length tokens.now) }
{
    match levels.checked_sub(1) {
        Some(below) => relating(below, tokens, alloc),
        None => Err(no_expr(tokens)),
    }
}

/// An expression in a box, where so many levels are left, of which it takes one.
#[cycle(exprs)]
#[inline(never)]
pub fn boxed_expr(
    levels: u8,
    tokens: &[Token],
    alloc: Global,
) -> Result<(Box<Expr>, &[Token]), Halt>
    ensures gives { Gives (λ r. (expr_view r.0.value, r.1.now)) result (expr_at levels tokens.now) }
    ensures kept { IfOk result (λ r. length r.1.now < length tokens.now) }
{
    let (e, rest) = expr(levels, tokens, alloc)?;
    Ok((Box::new(alloc, e)?, rest))
}

/// `simple [("=" | "<>" | "<" | "<=" | ">" | ">=") simple]`, where so many levels are left for the factors in it
#[cycle(exprs)]
#[inline(always)]
#[tactic(auto, unfolding(pfc_grammar::specs::placed::Exprs::expr_with, pfc_grammar::specs::placed::Exprs::expr_from, pfc_grammar::specs::placed::Reading::bind, pfc_grammar::specs::placed::Reading::branch, pfc_grammar::specs::placed::Reading::peek, pfc_grammar::specs::placed::Reading::pure))]
fn relating(levels: u8, tokens: &[Token], alloc: Global) -> Result<(Expr, &[Token]), Halt>
    ensures gives { Gives (λ r. (expr_view r.0, r.1.now)) result (expr_with (factor_at levels) tokens.now) }
    ensures kept { IfOk result (λ r. length r.1.now < length tokens.now) }
{
    let place = first_place(tokens);
    let (left, rest) = simple(levels, tokens, alloc)?;
    match relation(rest) {
        Some((op, behind)) => related(levels, left, op, place, behind, alloc),
        None => {
            let right = None;
            Ok((Expr { left, right, place }, rest))
        }
    }
}

/// `simple` behind its left side and the relation, in an expression that begins at `place`. It stands apart, so that an expression
/// without a relation has no room for a second side.
#[cycle(exprs)]
#[inline(never)]
#[tactic(auto, unfolding(pfc_grammar::specs::placed::Reading::bind, pfc_grammar::specs::placed::Reading::pure))]
fn related(
    levels: u8,
    left: Simple,
    op: (Relation, Place),
    place: Place,
    tokens: &[Token],
    alloc: Global,
) -> Result<(Expr, &[Token]), Halt>
    ensures gives { Gives (λ r. (expr_view r.0, r.1.now)) result
        (bind (simple_with (factor_at levels)) (λ right. pure (trees.related (simple_view left) op right place)) tokens.now) }
    ensures kept { IfOk result (λ r. length r.1.now < length tokens.now) }
{
    let (right, rest) = simple(levels, tokens, alloc)?;
    let right = Some((op, Box::new(alloc, right)?));
    Ok((Expr { left, right, place }, rest))
}

/// `["+" | "-"] term {("+" | "-" | "or") term}`
#[cycle(exprs)]
#[inline(always)]
#[tactic(auto, unfolding(pfc_grammar::specs::placed::Exprs::simple_behind, pfc_grammar::specs::placed::Reading::bind, pfc_grammar::specs::placed::Reading::pure))]
fn simple(levels: u8, tokens: &[Token], alloc: Global) -> Result<(Simple, &[Token]), Halt>
    ensures gives { Gives (λ r. (simple_view r.0, r.1.now)) result (simple_with (factor_at levels) tokens.now) }
    ensures kept { IfOk result (λ r. length r.1.now < length tokens.now) }
{
    let (sign, rest) = sign_before(tokens);
    let (first, rest) = term(levels, rest, alloc)?;
    let (others, rest) = summands(levels, rest, alloc)?;
    let sum = Simple {
        sign,
        first,
        rest: others,
    };
    Ok((sum, rest))
}

/// `{("+" | "-" | "or") term}`
#[cycle(exprs)]
#[inline(always)]
fn summands(
    levels: u8,
    tokens: &[Token],
    alloc: Global,
) -> Result<(Vec<((AddOp, Place), Term)>, &[Token]), Halt>
    ensures gives { Gives (λ r. (map (λ u. (u.0, term_view u.1)) r.0.items, r.1.now)) result (many as_add_op (summand_behind (factor_at levels)) tokens.now) }
    ensures kept { IfOk result (λ r. length r.1.now ≤ length tokens.now) }
{
    match add_op(tokens) {
        Some(_) => some_summands(levels, tokens, alloc),
        None => Ok((Vec::new(alloc), tokens)),
    }
}

/// The same where an operator comes.
#[cycle(exprs)]
#[inline(never)]
fn some_summands(
    levels: u8,
    tokens: &[Token],
    alloc: Global,
) -> Result<(Vec<((AddOp, Place), Term)>, &[Token]), Halt>
    ensures gives { Gives (λ r. (map (λ u. (u.0, term_view u.1)) r.0.items, r.1.now)) result (many as_add_op (summand_behind (factor_at levels)) tokens.now) }
    ensures kept { IfOk result (λ r. length r.1.now ≤ length tokens.now) }
{
    let mut summands = Vec::new(alloc);
    let mut rest = tokens;
    while let Some((op, behind)) = add_op(rest) {
        let (item, after) = term(levels, behind, alloc)?;
        summands.push((op, item))?;
        rest = after;
    }
    Ok((summands, rest))
}

/// `factor {("*" | "div" | "mod" | "and") factor}`
#[cycle(exprs)]
#[inline(always)]
#[tactic(auto, unfolding(pfc_grammar::specs::placed::Exprs::term_with, pfc_grammar::specs::placed::Reading::bind, pfc_grammar::specs::placed::Reading::pure))]
fn term(levels: u8, tokens: &[Token], alloc: Global) -> Result<(Term, &[Token]), Halt>
    ensures gives { Gives (λ r. (term_view r.0, r.1.now)) result (term_with (factor_at levels) tokens.now) }
    ensures kept { IfOk result (λ r. length r.1.now < length tokens.now) }
{
    let (first, rest) = factor(levels, tokens, alloc)?;
    let (others, rest) = multipliers(levels, rest, alloc)?;
    let product = Term {
        first,
        rest: others,
    };
    Ok((product, rest))
}

/// `{("*" | "div" | "mod" | "and") factor}`
#[cycle(exprs)]
#[inline(always)]
fn multipliers(
    levels: u8,
    tokens: &[Token],
    alloc: Global,
) -> Result<(Vec<((MulOp, Place), Factor)>, &[Token]), Halt>
    ensures gives { Gives (λ r. (map (λ m. (m.0, factor_view m.1)) r.0.items, r.1.now)) result
        (many as_mul_op (multiplier_behind (factor_at levels)) tokens.now) }
    ensures kept { IfOk result (λ r. length r.1.now ≤ length tokens.now) }
{
    match mul_op(tokens) {
        Some(_) => some_multipliers(levels, tokens, alloc),
        None => Ok((Vec::new(alloc), tokens)),
    }
}

/// The same where an operator comes.
#[cycle(exprs)]
#[inline(never)]
fn some_multipliers(
    levels: u8,
    tokens: &[Token],
    alloc: Global,
) -> Result<(Vec<((MulOp, Place), Factor)>, &[Token]), Halt>
    ensures gives { Gives (λ r. (map (λ m. (m.0, factor_view m.1)) r.0.items, r.1.now)) result
        (many as_mul_op (multiplier_behind (factor_at levels)) tokens.now) }
    ensures kept { IfOk result (λ r. length r.1.now ≤ length tokens.now) }
{
    let mut multipliers = Vec::new(alloc);
    let mut rest = tokens;
    while let Some((op, behind)) = mul_op(rest) {
        let (item, after) = factor(levels, behind, alloc)?;
        multipliers.push((op, item))?;
        rest = after;
    }
    Ok((multipliers, rest))
}

/// `number | literal | "not" factor | "(" expr ")" | desig [actuals]`, where a `not` takes one of the levels
#[cycle(exprs)]
#[inline(always)]
fn factor(levels: u8, tokens: &[Token], alloc: Global) -> Result<(Factor, &[Token]), Halt>
    ensures gives { Gives (λ r. (factor_view r.0, r.1.now)) result (factor_at levels tokens.now) }
    ensures kept { IfOk result (λ r. length r.1.now < length tokens.now) }
{
    let Some((place, behind)) = word(tokens, word::NOT) else {
        return plain_factor(levels, tokens, alloc);
    };
    match levels.checked_sub(1) {
        Some(below) => negation_behind(below, place, behind, alloc),
        None => Err(Halt::Deep(tokens.len())),
    }
}

/// `factor` behind `not`, which stands at `place`, where so many levels are left for it
#[cycle(exprs)]
#[inline(never)]
#[tactic(auto, unfolding(pfc_grammar::specs::placed::Reading::bind, pfc_grammar::specs::placed::Reading::pure))]
fn negation_behind(
    levels: u8,
    place: Place,
    tokens: &[Token],
    alloc: Global,
) -> Result<(Factor, &[Token]), Halt>
    ensures gives { Gives (λ r. (factor_view r.0, r.1.now)) result (bind (factor_at levels) (λ x. pure (trees.negation x place)) tokens.now) }
    ensures kept { IfOk result (λ r. length r.1.now < length tokens.now) }
{
    let (negated, rest) = factor(levels, tokens, alloc)?;
    Ok((Factor::Not(Box::new(alloc, negated)?, place), rest))
}

/// `number | literal | "(" expr ")" | desig [actuals]`. What is more than a number stands apart, so that a number has no room for it.
#[cycle(exprs)]
#[inline(always)]
#[tactic(auto, unfolding(pfc_grammar::specs::placed::Exprs::plain_factor, pfc_grammar::specs::placed::Reading::branch, pfc_grammar::specs::placed::Reading::pure, pfc_grammar::specs::placed::Reading::stop))]
fn plain_factor(levels: u8, tokens: &[Token], alloc: Global) -> Result<(Factor, &[Token]), Halt>
    ensures gives { Gives (λ r. (factor_view r.0, r.1.now)) result (plain_factor (expr_at levels) tokens.now) }
    ensures kept { IfOk result (λ r. length r.1.now < length tokens.now) }
{
    if let Some(((n, place), rest)) = number(tokens) {
        return Ok((Factor::Number(n, place), rest));
    }
    if let Some(((text, place), rest)) = literal(tokens) {
        return copied(text, place, rest, alloc);
    }
    if let Some((place, behind)) = sign(tokens, sign::OPEN_PAREN) {
        return paren_behind(levels, place, behind, alloc);
    }
    match name(tokens) {
        Some(((x, place), behind)) => applied_behind(levels, x, place, behind, alloc),
        None => Err(Halt::Unexpected(tokens.len())),
    }
}

/// A literal that stands at `place` before these tokens.
#[inline(never)]
#[tactic(auto, unfolding(pfc_grammar::specs::placed::Reading::pure))]
fn copied<'a>(
    text: &Text,
    place: Place,
    rest: &'a [Token],
    alloc: Global,
) -> Result<(Factor, &'a [Token]), Halt>
    ensures gives { Gives (λ r. (factor_view r.0, r.1.now)) result (pure (trees.literal text.now place) rest.now) }
    ensures kept { IfOk result (λ r. length r.1.now ≤ length rest.now) }
{
    let copy = text.copy(alloc)?;
    Ok((Factor::Literal(copy, place), rest))
}

/// `expr ")"`, behind `(`, which stands at `place`
#[cycle(exprs)]
#[inline(never)]
#[tactic(auto, unfolding(pfc_grammar::specs::placed::Exprs::paren_behind, pfc_grammar::specs::placed::Reading::bind, pfc_grammar::specs::placed::Reading::pure))]
fn paren_behind(
    levels: u8,
    place: Place,
    tokens: &[Token],
    alloc: Global,
) -> Result<(Factor, &[Token]), Halt>
    ensures gives { Gives (λ r. (factor_view r.0, r.1.now)) result (paren_behind (expr_at levels) place tokens.now) }
    ensures kept { IfOk result (λ r. length r.1.now ≤ length tokens.now) }
{
    let (inner, rest) = boxed_expr(levels, tokens, alloc)?;
    let (_, rest) = expect_sign(rest, sign::CLOSE_PAREN)?;
    Ok((Factor::Paren(inner, place), rest))
}

/// `desig [actuals]`, behind its name, which stands at `place`
#[cycle(exprs)]
#[inline(never)]
#[tactic(auto, unfolding(pfc_grammar::specs::placed::Exprs::applied_behind, pfc_grammar::specs::placed::Reading::bind, pfc_grammar::specs::placed::Reading::pure))]
fn applied_behind<'a>(
    levels: u8,
    x: &Name,
    place: Place,
    tokens: &'a [Token],
    alloc: Global,
) -> Result<(Factor, &'a [Token]), Halt>
    ensures gives { Gives (λ r. (factor_view r.0, r.1.now)) result (applied_behind (expr_at levels) (x.now, place) tokens.now) }
    ensures kept { IfOk result (λ r. length r.1.now ≤ length tokens.now) }
{
    let copy = x.copy(alloc)?;
    let (desig, rest) = desig_behind(levels, (copy, place), tokens, alloc)?;
    let (args, rest) = actuals(levels, rest, alloc)?;
    Ok((Factor::Use(desig, args, place), rest))
}

/// `{"[" expr {"," expr} "]" | "." name}`, behind its name
#[cycle(exprs)]
#[inline(always)]
#[tactic(auto, unfolding(pfc_grammar::specs::placed::Exprs::desig_behind, pfc_grammar::specs::placed::Reading::bind, pfc_grammar::specs::placed::Reading::pure))]
pub fn desig_behind(
    levels: u8,
    first: (Name, Place),
    tokens: &[Token],
    alloc: Global,
) -> Result<(Desig, &[Token]), Halt>
    ensures gives { Gives (λ r. (desig_view r.0, r.1.now)) result (desig_behind (expr_at levels) first tokens.now) }
    ensures kept { IfOk result (λ r. length r.1.now ≤ length tokens.now) }
{
    let (selectors, rest) = selectors(levels, tokens, alloc)?;
    let desig = Desig {
        name: first.0,
        selectors,
        place: first.1,
    };
    Ok((desig, rest))
}

/// `{"[" expr {"," expr} "]" | "." name}`
#[cycle(exprs)]
#[inline(always)]
fn selectors(levels: u8, tokens: &[Token], alloc: Global) -> Result<(Vec<Selector>, &[Token]), Halt>
    ensures gives { Gives (λ r. (map selector_view r.0.items, r.1.now)) result (many as_selector (λ o. selector_behind (expr_at levels) o.0 o.1) tokens.now) }
    ensures kept { IfOk result (λ r. length r.1.now ≤ length tokens.now) }
{
    match selector(tokens) {
        Some(_) => some_selectors(levels, tokens, alloc),
        None => Ok((Vec::new(alloc), tokens)),
    }
}

/// The same where one comes.
#[cycle(exprs)]
#[inline(never)]
fn some_selectors(
    levels: u8,
    tokens: &[Token],
    alloc: Global,
) -> Result<(Vec<Selector>, &[Token]), Halt>
    ensures gives { Gives (λ r. (map selector_view r.0.items, r.1.now)) result (many as_selector (λ o. selector_behind (expr_at levels) o.0 o.1) tokens.now) }
    ensures kept { IfOk result (λ r. length r.1.now ≤ length tokens.now) }
{
    let mut selectors = Vec::new(alloc);
    let mut rest = tokens;
    while let Some(((index, place), behind)) = selector(rest) {
        let (item, after) = selector_behind(levels, index, place, behind, alloc)?;
        selectors.push(item)?;
        rest = after;
    }
    Ok((selectors, rest))
}

/// `expr {"," expr} "]"` behind `[`, for which `index` is true and which stands at `place`, or `name` behind `.`
#[cycle(exprs)]
#[tactic(auto, unfolding(pfc_grammar::specs::placed::Exprs::selector_behind, pfc_grammar::specs::placed::Reading::list_of, pfc_grammar::specs::placed::Reading::bind, pfc_grammar::specs::placed::Reading::pure))]
fn selector_behind(
    levels: u8,
    index: bool,
    place: Place,
    tokens: &[Token],
    alloc: Global,
) -> Result<(Selector, &[Token]), Halt>
    ensures gives { Gives (λ r. (selector_view r.0, r.1.now)) result (selector_behind (expr_at levels) index place tokens.now) }
    ensures kept { IfOk result (λ r. length r.1.now < length tokens.now) }
{
    if index {
        let (first, rest) = expr(levels, tokens, alloc)?;
        let (exprs, rest) = exprs_behind(levels, first, rest, alloc)?;
        let (_, rest) = expect_sign(rest, sign::CLOSE_BRACKET)?;
        return Ok((Selector::Index(exprs, place), rest));
    }
    let ((x, place), rest) = expect_name(tokens, alloc)?;
    Ok((Selector::Field(x, place), rest))
}

/// `{"," expr}`, behind the first expression
#[cycle(exprs)]
fn exprs_behind(
    levels: u8,
    first: Expr,
    tokens: &[Token],
    alloc: Global,
) -> Result<(Vec<Expr>, &[Token]), Halt>
    ensures gives { Gives (λ r. (map expr_view r.0.items, r.1.now)) result (many_onto (expr_view first ∷ []) (as_sign COMMA) (λ t. expr_at levels) tokens.now) }
    ensures kept { IfOk result (λ r. length r.1.now ≤ length tokens.now) }
{
    let mut exprs = Vec::new(alloc);
    exprs.push(first)?;
    let mut rest = tokens;
    while let Some((_, behind)) = sign(rest, sign::COMMA) {
        let (item, after) = expr(levels, behind, alloc)?;
        exprs.push(item)?;
        rest = after;
    }
    Ok((exprs, rest))
}

/// `["(" expr [":" expr] {"," expr [":" expr]} ")"]`
#[cycle(exprs)]
#[inline(always)]
#[tactic(auto, unfolding(pfc_grammar::specs::placed::Exprs::actuals_with, pfc_grammar::specs::placed::Reading::branch, pfc_grammar::specs::placed::Reading::pure))]
pub fn actuals(levels: u8, tokens: &[Token], alloc: Global) -> Result<(Vec<Actual>, &[Token]), Halt>
    ensures gives { Gives (λ r. (actuals_view r.0.items, r.1.now)) result (actuals_with (expr_at levels) tokens.now) }
    ensures kept { IfOk result (λ r. length r.1.now ≤ length tokens.now) }
{
    match sign(tokens, sign::OPEN_PAREN) {
        Some((_, behind)) => actuals_within(levels, behind, alloc),
        None => Ok((Vec::new(alloc), tokens)),
    }
}

/// `expr [":" expr] {"," expr [":" expr]} ")"`, behind `(`. It stands apart, so that a name without arguments has no room for them.
#[cycle(exprs)]
#[inline(never)]
#[tactic(auto, unfolding(pfc_grammar::specs::placed::Reading::list_of, pfc_grammar::specs::placed::Reading::bind, pfc_grammar::specs::placed::Reading::pure))]
fn actuals_within(
    levels: u8,
    tokens: &[Token],
    alloc: Global,
) -> Result<(Vec<Actual>, &[Token]), Halt>
    ensures gives { Gives (λ r. (actuals_view r.0.items, r.1.now)) result
        (bind (list_of (as_sign COMMA) (actual_with (expr_at levels))) (λ args. bind (take_as (as_sign CLOSE_PAREN))
        (λ u. pure (actuals_of args))) tokens.now) }
    ensures kept { IfOk result (λ r. length r.1.now ≤ length tokens.now) }
{
    let (first, rest) = actual(levels, tokens, alloc)?;
    let (args, rest) = actuals_behind(levels, first, rest, alloc)?;
    let (_, rest) = expect_sign(rest, sign::CLOSE_PAREN)?;
    Ok((args, rest))
}

/// `expr [":" expr]`
#[cycle(exprs)]
#[tactic(auto, unfolding(pfc_grammar::specs::placed::Exprs::actual_with, pfc_grammar::specs::placed::Reading::bind, pfc_grammar::specs::placed::Reading::branch, pfc_grammar::specs::placed::Reading::pure))]
fn actual(levels: u8, tokens: &[Token], alloc: Global) -> Result<(Actual, &[Token]), Halt>
    ensures gives { Gives (λ r. (actual_view r.0, r.1.now)) result (actual_with (expr_at levels) tokens.now) }
    ensures kept { IfOk result (λ r. length r.1.now < length tokens.now) }
{
    let (value, rest) = expr(levels, tokens, alloc)?;
    match sign(rest, sign::COLON) {
        Some((_, behind)) => wide(levels, value, behind, alloc),
        None => Ok((Actual { value, width: None }, rest)),
    }
}

/// `expr` behind a value and `:`
#[cycle(exprs)]
#[inline(never)]
#[tactic(auto, unfolding(pfc_grammar::specs::placed::Reading::bind, pfc_grammar::specs::placed::Reading::pure))]
fn wide(
    levels: u8,
    value: Expr,
    tokens: &[Token],
    alloc: Global,
) -> Result<(Actual, &[Token]), Halt>
    ensures gives { Gives (λ r. (actual_view r.0, r.1.now)) result
        (bind (expr_at levels) (λ width. pure (trees.actual_width (expr_view value) width)) tokens.now) }
    ensures kept { IfOk result (λ r. length r.1.now < length tokens.now) }
{
    let (width, rest) = expr(levels, tokens, alloc)?;
    let width = Some(Box::new(alloc, width)?);
    Ok((Actual { value, width }, rest))
}

/// `{"," expr [":" expr]}`, behind the first argument
#[cycle(exprs)]
fn actuals_behind(
    levels: u8,
    first: Actual,
    tokens: &[Token],
    alloc: Global,
) -> Result<(Vec<Actual>, &[Token]), Halt>
    ensures gives { Gives (λ r. (map actual_view r.0.items, r.1.now)) result (many_onto (actual_view first ∷ []) (as_sign COMMA)
        (λ t. actual_with (expr_at levels)) tokens.now) }
    ensures kept { IfOk result (λ r. length r.1.now ≤ length tokens.now) }
{
    let mut args = Vec::new(alloc);
    args.push(first)?;
    let mut rest = tokens;
    while let Some((_, behind)) = sign(rest, sign::COMMA) {
        let (item, after) = actual(levels, behind, alloc)?;
        args.push(item)?;
        rest = after;
    }
    Ok((args, rest))
}

/// `name {"[" expr {"," expr} "]" | "." name}`
#[tactic(auto, unfolding(pfc_grammar::specs::placed::Exprs::desig_with, pfc_grammar::specs::placed::Reading::bind))]
pub fn desig(levels: u8, tokens: &[Token], alloc: Global) -> Result<(Desig, &[Token]), Halt>
    ensures gives { Gives (λ r. (desig_view r.0, r.1.now)) result (desig_with (expr_at levels) tokens.now) }
    ensures kept { IfOk result (λ r. length r.1.now < length tokens.now) }
{
    let (first, rest) = expect_name(tokens, alloc)?;
    desig_behind(levels, first, rest, alloc)
}
