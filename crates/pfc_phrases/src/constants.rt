//! Constants and ranges: their values, and the rules that are broken in them.
ghost use Rattle.std.specs.Prelude.{◌≡◌, ℕ, ℤ, option_map, Option};
ghost use Rattle.pfc_base.specs.declared.faults.Refusal.{Refusal};
ghost use Rattle.pfc_types.specs.Views.{levels};
ghost use Rattle.pfc_types.specs.Faults.{least_from, ◌⨾◌};
ghost use Rattle.pfc_types.specs.rules.Kinds as kinds;
ghost use Rattle.pfc_types.specs.Blocks.{State, note};
ghost use Rattle.pfc_types.specs.rules.Constants as constants;
ghost use Rattle.pfc_phrases.specs.Found.{noted, refused};
ghost use Rattle.pfc_phrases.specs.Views.{ordinal_view, extent_view};

use crate::{Best, NameKind, fault_unless, is_same, meaning_of, name_fault};
use pfc_base::{Place, Refusal};
use pfc_tree::{Constant, Range, Sign};
use pfc_types::{Meaning, Scopes, TypeId, View, find};

/// A value of a simple type, by its ordinal.
#[derive(Clone, Copy, Debug, PartialEq, Eq)]
pub struct Ordinal {
    pub t: TypeId,
    pub value: i32,
}

/// The number behind a sign.
pub fn signed_value(sign: Option<(Sign, Place)>, n: i32) -> i32
    ensures { result ≡ constants.signed sign n }
{
    match sign {
        Some((Sign::Minus, _)) => n.wrapping_neg(),
        Some((Sign::Plus, _)) | None => n,
    }
}

/// Whether a literal is a char, since its length is 1.
pub fn is_char(text: &[u8]) -> bool
    ensures { result ≡ constants.is_char text.now }
{
    matches!(text, [_])
}

/// The char that a literal of length 1 is.
pub fn char_value(text: &[u8]) -> Option<Ordinal>
    ensures { option_map ordinal_view result ≡ constants.char_value text.now }
{
    match text {
        [b] => Some(Ordinal {
            t: TypeId::CHAR,
            value: *b as i32,
        }),
        _ => None,
    }
}

/// Whether a constant of this type may have this sign: a signed one is an integer.
pub fn sign_fits(sign: Option<(Sign, Place)>, t: TypeId) -> bool
    ensures { result ≡ constants.sign_fits sign t }
{
    match sign {
        None => true,
        Some(_) => is_same(t, TypeId::INTEGER),
    }
}

/// The value of a name behind a sign.
pub fn named_constant(sign: Option<(Sign, Place)>, m: Option<Meaning>) -> Option<Ordinal>
    ensures { option_map ordinal_view result ≡ constants.named_constant sign m }
{
    match m {
        Some(Meaning::Constant { t, value }) => {
            if sign_fits(sign, t) {
                Some(Ordinal {
                    t,
                    value: signed_value(sign, value),
                })
            } else {
                None
            }
        }
        _ => None,
    }
}

/// The value of a constant, None where it is faulty.
pub fn constant_value(c: &Constant, scopes: &Scopes, view: &View) -> Option<Ordinal>
    ensures { option_map ordinal_view result ≡ constants.constant_value scopes.now.scopes (levels view.now) c.now }
{
    match c {
        Constant::Number(sign, n, _) => Some(Ordinal {
            t: TypeId::INTEGER,
            value: signed_value(*sign, *n),
        }),
        Constant::Named(sign, name, _) => named_constant(
            *sign,
            meaning_of(find(scopes, view, name)),
        ),
        Constant::Literal(text, _) => char_value(text.bytes()),
    }
}

/// The place of a sign, or of what stands behind it where there is none.
fn signed_place(sign: Option<(Sign, Place)>, place: Place) -> Place
    ensures { result ≡ constants.signed_place sign place }
{
    match sign {
        None => place,
        Some((_, first)) => first,
    }
}

/// The place of the first token of a constant.
pub fn constant_place(c: &Constant) -> Place
    ensures { result ≡ constants.constant_place c.now }
{
    match c {
        Constant::Number(sign, _, place) => signed_place(*sign, *place),
        Constant::Named(sign, _, place) => signed_place(*sign, *place),
        Constant::Literal(_, place) => *place,
    }
}

/// 322: a signed constant is an integer; at the sign.
fn sign_fault(sign: Option<(Sign, Place)>, t: TypeId) -> Option<Refusal>
    ensures { (value : ℤ) → refused result ≡ constants.sign_rule sign (Some (Meaning.Constant t value)) }
{
    match sign {
        None => None,
        Some((_, place)) => fault_unless(is_same(t, TypeId::INTEGER), place, 322),
    }
}

/// The broken rule of a constant's name: 301 and 310 at the name, and 322 at the sign. Only a constant's name can break the
/// last one.
fn named_fault(sign: Option<(Sign, Place)>, m: Option<Meaning>, place: Place) -> Option<Refusal>
    ensures first { (from : ℕ) (best : Option Refusal) →
        least_from from best (refused result) ≡ least_from from best (kinds.name_rules kinds.a_constant m place ⨾ constants.sign_rule sign m) }
    ensures noted { (s : State) → note s (refused result) ≡ note s (kinds.name_rules kinds.a_constant m place ⨾ constants.sign_rule sign m) }
{
    match m {
        Some(Meaning::Constant { t, value: _ }) => sign_fault(sign, t),
        _ => name_fault(NameKind::Constant, m, place),
    }
}

/// The rule that is broken in a constant: 301 and 310 at its name, 322 at the sign before a name that is no integer, and
/// 325 at a literal whose length is not 1. No two of them are broken in one constant.
pub fn constant_fault(c: &Constant, scopes: &Scopes, view: &View) -> Option<Refusal>
    ensures first { (from : ℕ) (best : Option Refusal) →
        least_from from best (refused result) ≡ least_from from best (constants.broken_constant scopes.now.scopes (levels view.now) c.now) }
    ensures noted { (s : State) → note s (refused result) ≡ note s (constants.broken_constant scopes.now.scopes (levels view.now) c.now) }
{
    match c {
        Constant::Number(_, _, _) => None,
        Constant::Named(sign, name, place) => named_fault(
            *sign,
            meaning_of(find(scopes, view, name)),
            *place,
        ),
        Constant::Literal(text, place) => fault_unless(is_char(text.bytes()), *place, 325),
    }
}

/// Asks the rules of a constant.
pub fn constant(c: &Constant, scopes: &Scopes, view: &View, best: &mut Best)
    ensures { best.new ≡ noted best.old (constants.broken_constant scopes.now.scopes (levels view.now) c.now) }
{
    best.add(constant_fault(c, scopes, view));
}

/// The bounds of an index, of one simple type, the low one not above the high one.
#[derive(Clone, Copy, Debug, PartialEq, Eq)]
pub struct Extent {
    pub index: TypeId,
    pub low: i32,
    pub high: i32,
}

/// Whether two values are the bounds of an index.
pub fn are_bounds(a: Ordinal, b: Ordinal) -> bool
    ensures { result ≡ constants.are_bounds (ordinal_view a) (ordinal_view b) }
{
    is_same(a.t, b.t) && a.value <= b.value
}

/// The index with these bounds, None where they are none.
pub fn extent_of(a: Option<Ordinal>, b: Option<Ordinal>) -> Option<Extent>
    ensures { option_map extent_view result ≡ constants.extent_of (option_map ordinal_view a) (option_map ordinal_view b) }
{
    let (Some(a), Some(b)) = (a, b) else {
        return None
    };
    if are_bounds(a, b) {
        Some(Extent {
            index: a.t,
            low: a.value,
            high: b.value,
        })
    } else {
        None
    }
}

/// The index that a range gives, None where a rule is broken in it.
pub fn range_extent(r: &Range, scopes: &Scopes, view: &View) -> Option<Extent>
    ensures { option_map extent_view result ≡ constants.range_extent scopes.now.scopes (levels view.now) r.now }
{
    extent_of(
        constant_value(&r.low, scopes, view),
        constant_value(&r.high, scopes, view),
    )
}

/// 303: both bounds of one simple type, the low one not above the high one; at the low bound. A range with a faulty bound
/// is not asked.
pub fn bounds_fault(a: Option<Ordinal>, b: Option<Ordinal>, place: Place) -> Option<Refusal>
    ensures { refused result ≡ constants.bounds_rule (option_map ordinal_view a) (option_map ordinal_view b) place }
{
    match (a, b) {
        (Some(a), Some(b)) => fault_unless(are_bounds(a, b), place, 303),
        _ => None,
    }
}
