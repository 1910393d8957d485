//! The reading of the items of `const`, `type` and `var`, and of the parameters of a heading.
ghost use Rattle.std.specs.Prelude.{◌≡◌, ◌<◌, ◌≤◌, Bool, [], ◌∷◌, length, map, IfOk};
ghost use Rattle.pfc_base.specs.declared.sign.TheConstants.{SEMICOLON};
ghost use Rattle.pfc_tree.specs.views.Types.{var_view, type_item_view, group_view};
ghost use Rattle.pfc_grammar.specs.Heads.{as_name, as_sign};
ghost use Rattle.pfc_grammar.specs.placed.Reading.{many_onto, list_of};
ghost use Rattle.pfc_grammar.specs.placed.Types.{type_at, const_item_behind, const_items, type_item_behind, type_items, var_item_behind, var_items};
ghost use Rattle.pfc_grammar.specs.placed.Types.{group_behind, group, formals};
ghost use Rattle.pfc_token_parser.specs.Giving.{Gives};

use crate::constants::{constant, names};
use crate::types::{type_node, var_behind};
use pfc_base::{Name, Place, Token, sign, word};
use pfc_token_parser::{Halt, expect_name, expect_sign, name, sign, word};
use pfc_tree::{ConstItem, Group, TypeItem, VarItem};
use std::alloc::Global;

/// `"=" constant ";"`, behind its name
#[tactic(auto, unfolding(pfc_grammar::specs::placed::Types::const_item_behind, pfc_grammar::specs::placed::Reading::bind, pfc_grammar::specs::placed::Reading::pure))]
fn const_item_behind(
    first: (Name, Place),
    tokens: &[Token],
    alloc: Global,
) -> Result<(ConstItem, &[Token]), Halt>
    ensures gives { Gives (λ r. (r.0, r.1.now)) result (const_item_behind first tokens.now) }
    ensures kept { IfOk result (λ r. length r.1.now < length tokens.now) }
{
    let (_, rest) = expect_sign(tokens, sign::EQUAL)?;
    let (value, rest) = constant(rest, alloc)?;
    let (_, rest) = expect_sign(rest, sign::SEMICOLON)?;
    let (name, place) = first;
    Ok((ConstItem { name, value, place }, rest))
}

/// `{name "=" constant ";"}`, behind the first item
fn const_items_behind(
    first: ConstItem,
    tokens: &[Token],
    alloc: Global,
) -> Result<(Vec<ConstItem>, &[Token]), Halt>
    ensures gives { Gives (λ r. (r.0.items, r.1.now)) result (many_onto (first ∷ []) as_name const_item_behind tokens.now) }
    ensures kept { IfOk result (λ r. length r.1.now ≤ length tokens.now) }
{
    let mut items = Vec::new(alloc);
    items.push(first)?;
    let mut rest = tokens;
    while let Some(((x, place), behind)) = name(rest) {
        let copy = x.copy(alloc)?;
        let (item, after) = const_item_behind((copy, place), behind, alloc)?;
        items.push(item)?;
        rest = after;
    }
    Ok((items, rest))
}

/// `(name "=" constant ";")+`
#[tactic(auto, unfolding(pfc_grammar::specs::placed::Types::const_items, pfc_grammar::specs::placed::Reading::some_of, pfc_grammar::specs::placed::Reading::bind, pfc_grammar::specs::placed::Reading::branch, pfc_grammar::specs::placed::Reading::stop))]
pub fn const_items(tokens: &[Token], alloc: Global) -> Result<(Vec<ConstItem>, &[Token]), Halt>
    ensures gives { Gives (λ r. (r.0.items, r.1.now)) result (const_items tokens.now) }
    ensures kept { IfOk result (λ r. length r.1.now < length tokens.now) }
{
    let Some(((x, place), behind)) = name(tokens) else {
        return Err(Halt::Unexpected(tokens.len()));
    };
    let copy = x.copy(alloc)?;
    let (first, rest) = const_item_behind((copy, place), behind, alloc)?;
    const_items_behind(first, rest, alloc)
}

/// `"=" type ";"`, behind its name
#[tactic(auto, unfolding(pfc_grammar::specs::placed::Types::type_item_behind, pfc_grammar::specs::placed::Reading::bind, pfc_grammar::specs::placed::Reading::pure))]
fn type_item_behind(
    levels: u8,
    first: (Name, Place),
    tokens: &[Token],
    alloc: Global,
) -> Result<(TypeItem, &[Token]), Halt>
    ensures gives { Gives (λ r. (type_item_view r.0, r.1.now)) result (type_item_behind (type_at levels) first tokens.now) }
    ensures kept { IfOk result (λ r. length r.1.now < length tokens.now) }
{
    let (_, rest) = expect_sign(tokens, sign::EQUAL)?;
    let (form, rest) = type_node(levels, rest, alloc)?;
    let (_, rest) = expect_sign(rest, sign::SEMICOLON)?;
    let (name, place) = first;
    Ok((TypeItem { name, form, place }, rest))
}

/// `{name "=" type ";"}`, behind the first item
fn type_items_behind(
    levels: u8,
    first: TypeItem,
    tokens: &[Token],
    alloc: Global,
) -> Result<(Vec<TypeItem>, &[Token]), Halt>
    ensures gives { Gives (λ r. (map type_item_view r.0.items, r.1.now)) result (many_onto (type_item_view first ∷ []) as_name
        (type_item_behind (type_at levels)) tokens.now) }
    ensures kept { IfOk result (λ r. length r.1.now ≤ length tokens.now) }
{
    let mut items = Vec::new(alloc);
    items.push(first)?;
    let mut rest = tokens;
    while let Some(((x, place), behind)) = name(rest) {
        let copy = x.copy(alloc)?;
        let (item, after) = type_item_behind(levels, (copy, place), behind, alloc)?;
        items.push(item)?;
        rest = after;
    }
    Ok((items, rest))
}

/// `(name "=" type ";")+`
#[tactic(auto, unfolding(pfc_grammar::specs::placed::Types::type_items, pfc_grammar::specs::placed::Reading::some_of, pfc_grammar::specs::placed::Reading::bind, pfc_grammar::specs::placed::Reading::branch, pfc_grammar::specs::placed::Reading::stop))]
pub fn type_items(
    levels: u8,
    tokens: &[Token],
    alloc: Global,
) -> Result<(Vec<TypeItem>, &[Token]), Halt>
    ensures gives { Gives (λ r. (map type_item_view r.0.items, r.1.now)) result (type_items (type_at levels) tokens.now) }
    ensures kept { IfOk result (λ r. length r.1.now < length tokens.now) }
{
    let Some(((x, place), behind)) = name(tokens) else {
        return Err(Halt::Unexpected(tokens.len()));
    };
    let copy = x.copy(alloc)?;
    let (first, rest) = type_item_behind(levels, (copy, place), behind, alloc)?;
    type_items_behind(levels, first, rest, alloc)
}

/// `{"," name} ":" type ";"`, behind the first name
#[tactic(auto, unfolding(pfc_grammar::specs::placed::Types::var_item_behind, pfc_grammar::specs::placed::Reading::bind, pfc_grammar::specs::placed::Reading::pure))]
fn var_item_behind(
    levels: u8,
    first: (Name, Place),
    tokens: &[Token],
    alloc: Global,
) -> Result<(VarItem, &[Token]), Halt>
    ensures gives { Gives (λ r. (var_view r.0, r.1.now)) result (var_item_behind (type_at levels) first tokens.now) }
    ensures kept { IfOk result (λ r. length r.1.now < length tokens.now) }
{
    let (item, rest) = var_behind(levels, first, tokens, alloc)?;
    let (_, rest) = expect_sign(rest, sign::SEMICOLON)?;
    Ok((item, rest))
}

/// `{name {"," name} ":" type ";"}`, behind the first item
fn var_items_behind(
    levels: u8,
    first: VarItem,
    tokens: &[Token],
    alloc: Global,
) -> Result<(Vec<VarItem>, &[Token]), Halt>
    ensures gives { Gives (λ r. (map var_view r.0.items, r.1.now)) result (many_onto (var_view first ∷ []) as_name
        (var_item_behind (type_at levels)) tokens.now) }
    ensures kept { IfOk result (λ r. length r.1.now ≤ length tokens.now) }
{
    let mut items = Vec::new(alloc);
    items.push(first)?;
    let mut rest = tokens;
    while let Some(((x, place), behind)) = name(rest) {
        let copy = x.copy(alloc)?;
        let (item, after) = var_item_behind(levels, (copy, place), behind, alloc)?;
        items.push(item)?;
        rest = after;
    }
    Ok((items, rest))
}

/// `(name {"," name} ":" type ";")+`
#[tactic(auto, unfolding(pfc_grammar::specs::placed::Types::var_items, pfc_grammar::specs::placed::Reading::some_of, pfc_grammar::specs::placed::Reading::bind, pfc_grammar::specs::placed::Reading::branch, pfc_grammar::specs::placed::Reading::stop))]
pub fn var_items(
    levels: u8,
    tokens: &[Token],
    alloc: Global,
) -> Result<(Vec<VarItem>, &[Token]), Halt>
    ensures gives { Gives (λ r. (map var_view r.0.items, r.1.now)) result (var_items (type_at levels) tokens.now) }
    ensures kept { IfOk result (λ r. length r.1.now < length tokens.now) }
{
    let Some(((x, place), behind)) = name(tokens) else {
        return Err(Halt::Unexpected(tokens.len()));
    };
    let copy = x.copy(alloc)?;
    let (first, rest) = var_item_behind(levels, (copy, place), behind, alloc)?;
    var_items_behind(levels, first, rest, alloc)
}

/// `name {"," name} ":" name`, behind `var` where `reference` is true
#[tactic(auto, unfolding(pfc_grammar::specs::placed::Types::group_behind, pfc_grammar::specs::placed::Reading::bind, pfc_grammar::specs::placed::Reading::pure))]
fn group_behind(reference: bool, tokens: &[Token], alloc: Global) -> Result<(Group, &[Token]), Halt>
    ensures gives { Gives (λ r. (group_view r.0, r.1.now)) result (group_behind reference tokens.now) }
    ensures kept { IfOk result (λ r. length r.1.now < length tokens.now) }
{
    let (names, rest) = names(tokens, alloc)?;
    let (_, rest) = expect_sign(rest, sign::COLON)?;
    let (form, rest) = expect_name(rest, alloc)?;
    let group = Group {
        reference,
        names,
        form,
    };
    Ok((group, rest))
}

/// `["var"] name {"," name} ":" name`
#[tactic(auto, unfolding(pfc_grammar::specs::placed::Types::group, pfc_grammar::specs::placed::Reading::branch))]
fn group(tokens: &[Token], alloc: Global) -> Result<(Group, &[Token]), Halt>
    ensures gives { Gives (λ r. (group_view r.0, r.1.now)) result (group tokens.now) }
    ensures kept { IfOk result (λ r. length r.1.now < length tokens.now) }
{
    match word(tokens, word::VAR) {
        Some((_, behind)) => group_behind(true, behind, alloc),
        None => group_behind(false, tokens, alloc),
    }
}

/// `{";" group}`, behind the first group
fn groups_behind(
    first: Group,
    tokens: &[Token],
    alloc: Global,
) -> Result<(Vec<Group>, &[Token]), Halt>
    ensures gives { Gives (λ r. (map group_view r.0.items, r.1.now)) result (many_onto (group_view first ∷ []) (as_sign SEMICOLON) (λ t. group) tokens.now) }
    ensures kept { IfOk result (λ r. length r.1.now ≤ length tokens.now) }
{
    let mut groups = Vec::new(alloc);
    groups.push(first)?;
    let mut rest = tokens;
    while let Some((_, behind)) = sign(rest, sign::SEMICOLON) {
        let (item, after) = group(behind, alloc)?;
        groups.push(item)?;
        rest = after;
    }
    Ok((groups, rest))
}

/// `["(" group {";" group} ")"]`
#[tactic(auto, unfolding(pfc_grammar::specs::placed::Types::formals, pfc_grammar::specs::placed::Reading::list_of, pfc_grammar::specs::placed::Reading::bind, pfc_grammar::specs::placed::Reading::branch, pfc_grammar::specs::placed::Reading::pure))]
pub fn formals(tokens: &[Token], alloc: Global) -> Result<(Vec<Group>, &[Token]), Halt>
    ensures gives { Gives (λ r. (map group_view r.0.items, r.1.now)) result (formals tokens.now) }
    ensures kept { IfOk result (λ r. length r.1.now ≤ length tokens.now) }
{
    let Some((_, behind)) = sign(tokens, sign::OPEN_PAREN) else {
        return Ok((Vec::new(alloc), tokens));
    };
    let (first, rest) = group(behind, alloc)?;
    let (groups, rest) = groups_behind(first, rest, alloc)?;
    let (_, rest) = expect_sign(rest, sign::CLOSE_PAREN)?;
    Ok((groups, rest))
}
