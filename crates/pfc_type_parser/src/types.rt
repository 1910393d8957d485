//! The reading of types. A type takes one of the levels that are left.
ghost use Rattle.std.specs.Prelude.{◌≡◌, ◌<◌, ◌≤◌, zero, Bool, false, [], ◌∷◌, length, map, IfOk};
ghost use Rattle.pfc_base.specs.declared.word.TheConstants.{END};
ghost use Rattle.pfc_base.specs.declared.sign.TheConstants.{SEMICOLON};
ghost use Rattle.pfc_tree.specs.trees.Types.{TypeTree};
ghost use Rattle.pfc_tree.specs.views.Types.{type_view, var_view};
ghost use Rattle.pfc_grammar.specs.Heads.{as_sign, is_word, begins_type};
ghost use Rattle.pfc_grammar.specs.placed.Reading.{end_onto};
ghost use Rattle.pfc_grammar.specs.placed.Types.{var_behind, var_with, channel_behind, array_behind, record_behind, type_with, type_at};
ghost use Rattle.pfc_token_parser.specs.Giving.{Halts, Gives, sees};

use crate::constants::{names_behind, ranges};
use pfc_base::{Name, Place, Token, sign, word};
use pfc_token_parser::{Halt, expect_name, expect_sign, expect_word, is_word, name, sign, word};
use pfc_tree::{TypeNode, VarItem};
use std::alloc::Global;

/// Whether the first token begins a type.
fn begins_type(tokens: &[Token]) -> bool
    ensures { result ≡ sees begins_type tokens.now }
{
    name(tokens).is_some()
        || is_word(tokens, word::CHANNEL)
        || is_word(tokens, word::ARRAY)
        || is_word(tokens, word::RECORD)
}

/// Where no level is left for a type.
#[tactic(auto, unfolding(pfc_grammar::specs::placed::Types::type_at, pfc_grammar::specs::placed::Reading::choose, pfc_grammar::specs::placed::Reading::stop, pfc_grammar::specs::placed::Reading::stop_deep))]
fn no_type(tokens: &[Token]) -> Halt
    ensures { Halts {A = TypeTree} result (type_at zero tokens.now) }
{
    if begins_type(tokens) {
        Halt::Deep(tokens.len())
    } else {
        Halt::Unexpected(tokens.len())
    }
}

/// A type where so many levels are left, of which it takes one.
#[cycle(types)]
pub(crate) fn type_node(
    levels: u8,
    tokens: &[Token],
    alloc: Global,
) -> Result<(TypeNode, &[Token]), Halt>
    ensures gives { Gives (λ r. (type_view r.0, r.1.now)) result (type_at levels tokens.now) }
    ensures kept { IfOk result (λ r. length r.1.now < length tokens.now) }
{
    match levels.checked_sub(1) {
        Some(below) => type_form(below, tokens, alloc),
        None => Err(no_type(tokens)),
    }
}

/// `name | "channel" "of" type | "array" "[" range {"," range} "]" "of" type
/// | "record" fields {";" fields} [";"] "end"`, where so many levels are left for the types in it
#[cycle(types)]
#[tactic(auto, unfolding(pfc_grammar::specs::placed::Types::type_with, pfc_grammar::specs::placed::Reading::branch, pfc_grammar::specs::placed::Reading::pure, pfc_grammar::specs::placed::Reading::stop))]
fn type_form(levels: u8, tokens: &[Token], alloc: Global) -> Result<(TypeNode, &[Token]), Halt>
    ensures gives { Gives (λ r. (type_view r.0, r.1.now)) result (type_with (type_at levels) tokens.now) }
    ensures kept { IfOk result (λ r. length r.1.now < length tokens.now) }
{
    if let Some(((x, place), rest)) = name(tokens) {
        let copy = x.copy(alloc)?;
        return Ok((TypeNode::Named(copy, place), rest));
    }
    if let Some((place, rest)) = word(tokens, word::CHANNEL) {
        return channel_behind(levels, place, rest, alloc);
    }
    if let Some((place, rest)) = word(tokens, word::ARRAY) {
        return array_behind(levels, place, rest, alloc);
    }
    if let Some((place, rest)) = word(tokens, word::RECORD) {
        return record_behind(levels, place, rest, alloc);
    }
    Err(Halt::Unexpected(tokens.len()))
}

/// `"of" type`, behind `channel`, which stands at `place`
#[cycle(types)]
#[tactic(auto, unfolding(pfc_grammar::specs::placed::Types::channel_behind, pfc_grammar::specs::placed::Reading::bind, pfc_grammar::specs::placed::Reading::pure))]
fn channel_behind(
    levels: u8,
    place: Place,
    tokens: &[Token],
    alloc: Global,
) -> Result<(TypeNode, &[Token]), Halt>
    ensures gives { Gives (λ r. (type_view r.0, r.1.now)) result (channel_behind (type_at levels) place tokens.now) }
    ensures kept { IfOk result (λ r. length r.1.now < length tokens.now) }
{
    let (_, rest) = expect_word(tokens, word::OF)?;
    let (form, rest) = type_node(levels, rest, alloc)?;
    Ok((TypeNode::Channel(Box::new(alloc, form)?, place), rest))
}

/// `"[" range {"," range} "]" "of" type`, behind `array`, which stands at `place`
#[cycle(types)]
#[tactic(auto, unfolding(pfc_grammar::specs::placed::Types::array_behind, pfc_grammar::specs::placed::Reading::bind, pfc_grammar::specs::placed::Reading::pure))]
fn array_behind(
    levels: u8,
    place: Place,
    tokens: &[Token],
    alloc: Global,
) -> Result<(TypeNode, &[Token]), Halt>
    ensures gives { Gives (λ r. (type_view r.0, r.1.now)) result (array_behind (type_at levels) place tokens.now) }
    ensures kept { IfOk result (λ r. length r.1.now < length tokens.now) }
{
    let (_, rest) = expect_sign(tokens, sign::OPEN_BRACKET)?;
    let (bounds, rest) = ranges(rest, alloc)?;
    let (_, rest) = expect_sign(rest, sign::CLOSE_BRACKET)?;
    let (_, rest) = expect_word(rest, word::OF)?;
    let (form, rest) = type_node(levels, rest, alloc)?;
    Ok((TypeNode::Array(bounds, Box::new(alloc, form)?, place), rest))
}

/// `fields {";" fields} [";"] "end"`, behind `record`, which stands at `place`
#[cycle(types)]
#[tactic(auto, unfolding(pfc_grammar::specs::placed::Types::record_behind, pfc_grammar::specs::placed::Reading::list_end, pfc_grammar::specs::placed::Reading::bind, pfc_grammar::specs::placed::Reading::pure))]
fn record_behind(
    levels: u8,
    place: Place,
    tokens: &[Token],
    alloc: Global,
) -> Result<(TypeNode, &[Token]), Halt>
    ensures gives { Gives (λ r. (type_view r.0, r.1.now)) result (record_behind (type_at levels) place tokens.now) }
    ensures kept { IfOk result (λ r. length r.1.now < length tokens.now) }
{
    let (first, rest) = fields(levels, tokens, alloc)?;
    let ((groups, last), rest) = fields_behind(levels, first, rest, alloc)?;
    let (_, rest) = expect_word(rest, word::END)?;
    Ok((TypeNode::Fields(groups, last, place), rest))
}

/// `name {"," name} ":" type`
#[cycle(types)]
#[tactic(auto, unfolding(pfc_grammar::specs::placed::Types::var_with, pfc_grammar::specs::placed::Reading::bind))]
fn fields(levels: u8, tokens: &[Token], alloc: Global) -> Result<(VarItem, &[Token]), Halt>
    ensures gives { Gives (λ r. (var_view r.0, r.1.now)) result (var_with (type_at levels) tokens.now) }
    ensures kept { IfOk result (λ r. length r.1.now < length tokens.now) }
{
    let (first, rest) = expect_name(tokens, alloc)?;
    var_behind(levels, first, rest, alloc)
}

/// `{";" fields} [";"]`, behind the first fields and before `end`, with whether the last `;` stands
#[cycle(types)]
fn fields_behind(
    levels: u8,
    first: VarItem,
    tokens: &[Token],
    alloc: Global,
) -> Result<((Vec<VarItem>, bool), &[Token]), Halt>
    ensures gives { Gives (λ r. ((map var_view r.0.0.items, r.0.1), r.1.now)) result (end_onto (var_view first ∷ []) (as_sign SEMICOLON) (is_word END)
        (var_with (type_at levels)) tokens.now) }
    ensures kept { IfOk result (λ r. length r.1.now ≤ length tokens.now) }
{
    let mut groups = Vec::new(alloc);
    groups.push(first)?;
    let mut rest = tokens;
    while let Some((_, behind)) = sign(rest, sign::SEMICOLON) {
        if is_word(behind, word::END) {
            return Ok(((groups, true), behind));
        }
        let (item, after) = fields(levels, behind, alloc)?;
        groups.push(item)?;
        rest = after;
    }
    Ok(((groups, false), rest))
}

/// `{"," name} ":" type`, behind the first name
#[cycle(types)]
#[tactic(auto, unfolding(pfc_grammar::specs::placed::Types::var_behind, pfc_grammar::specs::placed::Reading::bind, pfc_grammar::specs::placed::Reading::pure))]
pub(crate) fn var_behind(
    levels: u8,
    first: (Name, Place),
    tokens: &[Token],
    alloc: Global,
) -> Result<(VarItem, &[Token]), Halt>
    ensures gives { Gives (λ r. (var_view r.0, r.1.now)) result (var_behind (type_at levels) first tokens.now) }
    ensures kept { IfOk result (λ r. length r.1.now < length tokens.now) }
{
    let (names, rest) = names_behind(first, tokens, alloc)?;
    let (_, rest) = expect_sign(rest, sign::COLON)?;
    let (form, rest) = type_node(levels, rest, alloc)?;
    Ok((VarItem { names, form }, rest))
}
