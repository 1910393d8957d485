//! The reading of names, constants and ranges.
ghost use Rattle.std.specs.Prelude.{◌≡◌, ◌<◌, ◌≤◌, [], ◌∷◌, length, IfOk};
ghost use Rattle.pfc_base.specs.declared.sign.TheConstants.{COMMA};
ghost use Rattle.pfc_grammar.specs.Heads.{as_sign};
ghost use Rattle.pfc_grammar.specs.placed.Reading.{many_onto, list_of};
ghost use Rattle.pfc_grammar.specs.placed.Types.{names_behind, names, constant_behind, constant_reader, range};
ghost use Rattle.pfc_token_parser.specs.Giving.{Gives};

use pfc_base::{Name, Place, Token, sign};
use pfc_token_parser::{Halt, expect_name, expect_sign, literal, name, number, plus_minus, sign};
use pfc_tree::{Constant, Range, Sign};
use std::alloc::Global;

/// `{"," name}`, behind the first name
pub(crate) fn names_behind(
    first: (Name, Place),
    tokens: &[Token],
    alloc: Global,
) -> Result<(Vec<(Name, Place)>, &[Token]), Halt>
    ensures gives { Gives (λ r. (r.0.items, r.1.now)) result (names_behind first tokens.now) }
    ensures kept { IfOk result (λ r. length r.1.now ≤ length tokens.now) }
{
    let mut names = Vec::new(alloc);
    names.push(first)?;
    let mut rest = tokens;
    while let Some((_, behind)) = sign(rest, sign::COMMA) {
        let (name, after) = expect_name(behind, alloc)?;
        names.push(name)?;
        rest = after;
    }
    Ok((names, rest))
}

/// `name {"," name}`
#[tactic(auto, unfolding(pfc_grammar::specs::placed::Types::names, pfc_grammar::specs::placed::Reading::bind))]
pub fn names(tokens: &[Token], alloc: Global) -> Result<(Vec<(Name, Place)>, &[Token]), Halt>
    ensures gives { Gives (λ r. (r.0.items, r.1.now)) result (names tokens.now) }
    ensures kept { IfOk result (λ r. length r.1.now < length tokens.now) }
{
    let (first, rest) = expect_name(tokens, alloc)?;
    names_behind(first, rest, alloc)
}

/// `number | name`, behind its sign
#[tactic(auto, unfolding(pfc_grammar::specs::placed::Types::constant_behind, pfc_grammar::specs::placed::Reading::branch, pfc_grammar::specs::placed::Reading::pure, pfc_grammar::specs::placed::Reading::stop))]
fn constant_behind(
    op: Option<(Sign, Place)>,
    tokens: &[Token],
    alloc: Global,
) -> Result<(Constant, &[Token]), Halt>
    ensures gives { Gives (λ r. (r.0, r.1.now)) result (constant_behind op tokens.now) }
    ensures kept { IfOk result (λ r. length r.1.now < length tokens.now) }
{
    if let Some(((n, place), rest)) = number(tokens) {
        return Ok((Constant::Number(op, n, place), rest));
    }
    if let Some(((x, place), rest)) = name(tokens) {
        let copy = x.copy(alloc)?;
        return Ok((Constant::Named(op, copy, place), rest));
    }
    Err(Halt::Unexpected(tokens.len()))
}

/// `["+" | "-"] (number | name) | literal`
#[tactic(auto, unfolding(pfc_grammar::specs::placed::Types::constant_reader, pfc_grammar::specs::placed::Reading::branch, pfc_grammar::specs::placed::Reading::pure))]
pub fn constant(tokens: &[Token], alloc: Global) -> Result<(Constant, &[Token]), Halt>
    ensures gives { Gives (λ r. (r.0, r.1.now)) result (constant_reader tokens.now) }
    ensures kept { IfOk result (λ r. length r.1.now < length tokens.now) }
{
    if let Some(((text, place), rest)) = literal(tokens) {
        let copy = text.copy(alloc)?;
        return Ok((Constant::Literal(copy, place), rest));
    }
    match plus_minus(tokens) {
        Some((op, rest)) => constant_behind(Some(op), rest, alloc),
        None => constant_behind(None, tokens, alloc),
    }
}

/// `constant ".." constant`
#[tactic(auto, unfolding(pfc_grammar::specs::placed::Types::range, pfc_grammar::specs::placed::Reading::bind, pfc_grammar::specs::placed::Reading::pure))]
fn range(tokens: &[Token], alloc: Global) -> Result<(Range, &[Token]), Halt>
    ensures gives { Gives (λ r. (r.0, r.1.now)) result (range tokens.now) }
    ensures kept { IfOk result (λ r. length r.1.now < length tokens.now) }
{
    let (low, rest) = constant(tokens, alloc)?;
    let (_, rest) = expect_sign(rest, sign::DOT_DOT)?;
    let (high, rest) = constant(rest, alloc)?;
    Ok((Range { low, high }, rest))
}

/// `{"," range}`, behind the first range
fn ranges_behind(
    first: Range,
    tokens: &[Token],
    alloc: Global,
) -> Result<(Vec<Range>, &[Token]), Halt>
    ensures gives { Gives (λ r. (r.0.items, r.1.now)) result (many_onto (first ∷ []) (as_sign COMMA) (λ t. range) tokens.now) }
    ensures kept { IfOk result (λ r. length r.1.now ≤ length tokens.now) }
{
    let mut ranges = Vec::new(alloc);
    ranges.push(first)?;
    let mut rest = tokens;
    while let Some((_, behind)) = sign(rest, sign::COMMA) {
        let (item, after) = range(behind, alloc)?;
        ranges.push(item)?;
        rest = after;
    }
    Ok((ranges, rest))
}

/// `range {"," range}`
#[tactic(auto, unfolding(pfc_grammar::specs::placed::Reading::list_of, pfc_grammar::specs::placed::Reading::bind))]
pub(crate) fn ranges(tokens: &[Token], alloc: Global) -> Result<(Vec<Range>, &[Token]), Halt>
    ensures gives { Gives (λ r. (r.0.items, r.1.now)) result (list_of (as_sign COMMA) range tokens.now) }
    ensures kept { IfOk result (λ r. length r.1.now < length tokens.now) }
{
    let (first, rest) = range(tokens, alloc)?;
    ranges_behind(first, rest, alloc)
}
