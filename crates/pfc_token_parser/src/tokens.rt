//! The ends of a reading, and the reading of one token.
ghost use Rattle.std.specs.Prelude.{◌≡◌, ◌<◌, length, IfSome, IfOk, option_map};
ghost use Rattle.pfc_grammar.specs.Heads.{as_word, as_sign, as_name, as_number, as_literal, as_plus_minus, as_relation, as_add_op, as_mul_op, as_selector};
ghost use Rattle.pfc_grammar.specs.Heads.{as_direction, is_word};
ghost use Rattle.pfc_grammar.specs.placed.Reading.{take_as, first_place};
ghost use Rattle.pfc_token_parser.specs.Giving.{Gives, taken, sees};

use pfc_base::{Kind, Memory, Name, Place, Text, Token, sign, word};
use pfc_tree::{AddOp, MulOp, Relation, Sign};
use std::alloc::{AllocError, AllocFailed, Global};

/// Why a reading halts, with the number of tokens that are left there.
#[derive(Clone, Copy, Drop)]
pub enum Halt {
    /// The token is not expected, or none is left where one is.
    Unexpected(usize),
    /// The token is too deep.
    Deep(usize),
    /// Memory is wanting.
    Memory,
}

impl From<Memory> for Halt {
    ghost use Rattle.std.specs.Prelude.{◌≡◌};
    ghost use Rattle.pfc_token_parser.specs.declared.tokens.Halt.TheVariants as halt;

    ghost from_gives = { λ _ h. h ≡ halt.Memory };

    fn from(_memory: Memory) -> Halt {
        Halt::Memory
    }
}

impl<T: Drop> From<AllocFailed<T>> for Halt {
    ghost use Rattle.std.specs.Prelude.{◌≡◌};
    ghost use Rattle.pfc_token_parser.specs.declared.tokens.Halt.TheVariants as halt;

    ghost from_gives = { λ _ h. h ≡ halt.Memory };

    fn from(_failed: AllocFailed<T>) -> Halt {
        Halt::Memory
    }
}

/// The word `n`: its place, and the tokens behind it.
pub fn word(tokens: &[Token], n: u8) -> Option<(Place, &[Token])>
    ensures taken { taken (as_word n) tokens.now ≡ option_map (λ r. ((tt, r.0), r.1.now)) result }
    ensures kept { IfSome result (λ r. length r.1.now < length tokens.now) }
{
    match tokens {
        [
            Token {
                kind: Kind::Word(w),
                place,
            },
            rest @ ..,
        ] if *w == n => Some((*place, rest)),
        _ => None,
    }
}

/// The sign `n`: its place, and the tokens behind it.
pub fn sign(tokens: &[Token], n: u8) -> Option<(Place, &[Token])>
    ensures taken { taken (as_sign n) tokens.now ≡ option_map (λ r. ((tt, r.0), r.1.now)) result }
    ensures kept { IfSome result (λ r. length r.1.now < length tokens.now) }
{
    match tokens {
        [
            Token {
                kind: Kind::Sign(s),
                place,
            },
            rest @ ..,
        ] if *s == n => Some((*place, rest)),
        _ => None,
    }
}

/// A name and its place, and the tokens behind it.
pub fn name(tokens: &[Token]) -> Option<((&Name, Place), &[Token])>
    ensures taken { taken as_name tokens.now ≡ option_map (λ r. ((r.0.0.now, r.0.1), r.1.now)) result }
    ensures kept { IfSome result (λ r. length r.1.now < length tokens.now) }
{
    match tokens {
        [
            Token {
                kind: Kind::Name(name),
                place,
            },
            rest @ ..,
        ] => Some(((name, *place), rest)),
        _ => None,
    }
}

/// A number and its place, and the tokens behind it. A negative number is none of a text.
pub fn number(tokens: &[Token]) -> Option<((i32, Place), &[Token])>
    ensures taken { taken as_number tokens.now ≡ option_map (λ r. (r.0, r.1.now)) result }
    ensures kept { IfSome result (λ r. length r.1.now < length tokens.now) }
{
    match tokens {
        [
            Token {
                kind: Kind::Number(n),
                place,
            },
            rest @ ..,
        ] if *n >= 0 => Some(((*n, *place), rest)),
        _ => None,
    }
}

/// A literal and its place, and the tokens behind it.
pub fn literal(tokens: &[Token]) -> Option<((&Text, Place), &[Token])>
    ensures taken { taken as_literal tokens.now ≡ option_map (λ r. ((r.0.0.now, r.0.1), r.1.now)) result }
    ensures kept { IfSome result (λ r. length r.1.now < length tokens.now) }
{
    match tokens {
        [
            Token {
                kind: Kind::Literal(text),
                place,
            },
            rest @ ..,
        ] => Some(((text, *place), rest)),
        _ => None,
    }
}

/// `+` or `-` before a constant or a sum, with its place, and the tokens behind it.
pub fn plus_minus(tokens: &[Token]) -> Option<((Sign, Place), &[Token])>
    ensures taken { taken as_plus_minus tokens.now ≡ option_map (λ r. (r.0, r.1.now)) result }
    ensures kept { IfSome result (λ r. length r.1.now < length tokens.now) }
{
    let [
        Token {
            kind: Kind::Sign(n),
            place,
        },
        rest @ ..,
    ] = tokens
    else {
        return None;
    };
    let op = match *n {
        sign::PLUS => Sign::Plus,
        sign::MINUS => Sign::Minus,
        _ => return None,
    };
    Some(((op, *place), rest))
}

/// An operator between two sums, with its place, and the tokens behind it.
pub fn relation(tokens: &[Token]) -> Option<((Relation, Place), &[Token])>
    ensures taken { taken as_relation tokens.now ≡ option_map (λ r. (r.0, r.1.now)) result }
    ensures kept { IfSome result (λ r. length r.1.now < length tokens.now) }
{
    let [
        Token {
            kind: Kind::Sign(n),
            place,
        },
        rest @ ..,
    ] = tokens
    else {
        return None;
    };
    let op = match *n {
        sign::EQUAL => Relation::Eq,
        sign::NOT_EQUAL => Relation::Ne,
        sign::LESS => Relation::Lt,
        sign::LESS_EQUAL => Relation::Le,
        sign::GREATER => Relation::Gt,
        sign::GREATER_EQUAL => Relation::Ge,
        _ => return None,
    };
    Some(((op, *place), rest))
}

/// An operator between two terms, with its place, and the tokens behind it.
pub fn add_op(tokens: &[Token]) -> Option<((AddOp, Place), &[Token])>
    ensures taken { taken as_add_op tokens.now ≡ option_map (λ r. (r.0, r.1.now)) result }
    ensures kept { IfSome result (λ r. length r.1.now < length tokens.now) }
{
    let [Token { kind, place }, rest @ ..] = tokens else {
        return None;
    };
    let op = match kind {
        Kind::Sign(sign::PLUS) => AddOp::Add,
        Kind::Sign(sign::MINUS) => AddOp::Sub,
        Kind::Word(word::OR) => AddOp::Or,
        _ => return None,
    };
    Some(((op, *place), rest))
}

/// An operator between two factors, with its place, and the tokens behind it.
pub fn mul_op(tokens: &[Token]) -> Option<((MulOp, Place), &[Token])>
    ensures taken { taken as_mul_op tokens.now ≡ option_map (λ r. (r.0, r.1.now)) result }
    ensures kept { IfSome result (λ r. length r.1.now < length tokens.now) }
{
    let [Token { kind, place }, rest @ ..] = tokens else {
        return None;
    };
    let op = match kind {
        Kind::Sign(sign::STAR) => MulOp::Mul,
        Kind::Word(word::DIV) => MulOp::Div,
        Kind::Word(word::MOD) => MulOp::Mod,
        Kind::Word(word::AND) => MulOp::And,
        _ => return None,
    };
    Some(((op, *place), rest))
}

/// What begins a selector, `[`, for which it is true, or `.`, with its place, and the tokens behind it.
pub fn selector(tokens: &[Token]) -> Option<((bool, Place), &[Token])>
    ensures taken { taken as_selector tokens.now ≡ option_map (λ r. (r.0, r.1.now)) result }
    ensures kept { IfSome result (λ r. length r.1.now < length tokens.now) }
{
    let [
        Token {
            kind: Kind::Sign(n),
            place,
        },
        rest @ ..,
    ] = tokens
    else {
        return None;
    };
    let index = match *n {
        sign::OPEN_BRACKET => true,
        sign::DOT => false,
        _ => return None,
    };
    Some(((index, *place), rest))
}

/// The direction of a `for`, `downto`, for which it is true, or `to`, with its place, and the tokens behind it.
pub fn direction(tokens: &[Token]) -> Option<((bool, Place), &[Token])>
    ensures taken { taken as_direction tokens.now ≡ option_map (λ r. (r.0, r.1.now)) result }
    ensures kept { IfSome result (λ r. length r.1.now < length tokens.now) }
{
    let [
        Token {
            kind: Kind::Word(n),
            place,
        },
        rest @ ..,
    ] = tokens
    else {
        return None;
    };
    let down = match *n {
        word::TO => false,
        word::DOWNTO => true,
        _ => return None,
    };
    Some(((down, *place), rest))
}

/// The word `n`, which is expected: its place, and the tokens behind it.
#[tactic(auto, unfolding(pfc_grammar::specs::placed::Reading::take_as, pfc_grammar::specs::placed::Reading::branch, pfc_grammar::specs::placed::Reading::pure, pfc_grammar::specs::placed::Reading::stop))]
pub fn expect_word(tokens: &[Token], n: u8) -> Result<(Place, &[Token]), Halt>
    ensures gives { Gives (λ r. ((tt, r.0), r.1.now)) result (take_as (as_word n) tokens.now) }
    ensures kept { IfOk result (λ r. length r.1.now < length tokens.now) }
{
    word(tokens, n).ok_or(Halt::Unexpected(tokens.len()))
}

/// The sign `n`, which is expected: its place, and the tokens behind it.
#[tactic(auto, unfolding(pfc_grammar::specs::placed::Reading::take_as, pfc_grammar::specs::placed::Reading::branch, pfc_grammar::specs::placed::Reading::pure, pfc_grammar::specs::placed::Reading::stop))]
pub fn expect_sign(tokens: &[Token], n: u8) -> Result<(Place, &[Token]), Halt>
    ensures gives { Gives (λ r. ((tt, r.0), r.1.now)) result (take_as (as_sign n) tokens.now) }
    ensures kept { IfOk result (λ r. length r.1.now < length tokens.now) }
{
    sign(tokens, n).ok_or(Halt::Unexpected(tokens.len()))
}

/// A name, which is expected: a copy of it and its place, and the tokens behind it.
#[tactic(auto, unfolding(pfc_grammar::specs::placed::Reading::take_as, pfc_grammar::specs::placed::Reading::branch, pfc_grammar::specs::placed::Reading::pure, pfc_grammar::specs::placed::Reading::stop))]
pub fn expect_name(tokens: &[Token], alloc: Global) -> Result<((Name, Place), &[Token]), Halt>
    ensures gives { Gives (λ r. (r.0, r.1.now)) result (take_as as_name tokens.now) }
    ensures kept { IfOk result (λ r. length r.1.now < length tokens.now) }
{
    let Some(((name, place), rest)) = name(tokens) else {
        return Err(Halt::Unexpected(tokens.len()));
    };
    let copy = name.copy(alloc)?;
    Ok(((copy, place), rest))
}

/// Whether the word `n` comes.
pub fn is_word(tokens: &[Token], n: u8) -> bool
    ensures { result ≡ sees (is_word n) tokens.now }
{
    word(tokens, n).is_some()
}

/// The place of the first token. Where there is none, a place that is never kept.
pub fn first_place(tokens: &[Token]) -> Place
    ensures { result ≡ first_place tokens.now }
{
    match tokens {
        [first, ..] => first.place,
        [] => Place { line: 0, column: 0 },
    }
}
