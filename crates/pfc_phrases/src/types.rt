//! The types that a part has or may have.
//!
//! A type is None where the part is faulty. A rule that needs the type of a faulty part is not broken by that part, so the
//! rules ask what a part may have, and a part has a type only where all its own parts have theirs.
ghost use Rattle.std.specs.Prelude.{◌≡◌};
ghost use Rattle.pfc_types.specs.Types.{is_same, is_simple, is_object};
ghost use Rattle.pfc_types.specs.rules.Kinds.{where_so, has, may_have, agree, may_agree, has_simple, may_be_simple, has_object, value_rule, condition_rule};
ghost use Rattle.pfc_phrases.specs.Found.{refused};

use crate::fault_unless;
use pfc_base::{Place, Refusal};
use pfc_types::{TypeId, TypeTable};

/// Whether two types are the same.
pub fn is_same(t: TypeId, u: TypeId) -> bool
    ensures { result ≡ is_same t u }
{
    t.place == u.place
}

/// Whether a type is `integer`, `boolean` or `char`.
pub fn is_simple(t: TypeId) -> bool
    ensures { result ≡ is_simple t }
{
    t.place < 3
}

/// Whether a type is a semaphore, a channel, a condition or a process, or holds one.
pub fn is_object(types: &TypeTable, t: TypeId) -> bool
    ensures { result ≡ is_object types.now t }
{
    let held = types.held(t);
    held.shared || held.conditions || held.processes > 0
}

/// A type, where this holds.
pub fn where_so(holds: bool, t: TypeId) -> Option<TypeId>
    ensures { result ≡ where_so holds t }
{
    if holds { Some(t) } else { None }
}

/// The part has this type.
pub fn has(t: TypeId, part: Option<TypeId>) -> bool
    ensures { result ≡ has t part }
{
    match part {
        Some(u) => is_same(u, t),
        None => false,
    }
}

/// The part has this type, or is faulty.
pub fn may_have(t: TypeId, part: Option<TypeId>) -> bool
    ensures { result ≡ may_have t part }
{
    match part {
        Some(u) => is_same(u, t),
        None => true,
    }
}

/// Both parts have one type.
pub fn agree(a: Option<TypeId>, b: Option<TypeId>) -> bool
    ensures { result ≡ agree a b }
{
    match (a, b) {
        (Some(t), Some(u)) => is_same(t, u),
        _ => false,
    }
}

/// Both parts have one type, or one of them is faulty.
pub fn may_agree(a: Option<TypeId>, b: Option<TypeId>) -> bool
    ensures { result ≡ may_agree a b }
{
    match (a, b) {
        (Some(t), Some(u)) => is_same(t, u),
        _ => true,
    }
}

/// The part has a simple type.
pub fn has_simple(part: Option<TypeId>) -> bool
    ensures { result ≡ has_simple part }
{
    match part {
        Some(t) => is_simple(t),
        None => false,
    }
}

/// The part has a simple type, or is faulty.
pub fn may_be_simple(part: Option<TypeId>) -> bool
    ensures { result ≡ may_be_simple part }
{
    match part {
        Some(t) => is_simple(t),
        None => true,
    }
}

/// The part has an object type.
pub fn has_object(types: &TypeTable, part: Option<TypeId>) -> bool
    ensures { result ≡ has_object types.now part }
{
    match part {
        Some(t) => is_object(types, t),
        None => false,
    }
}

/// 406: object types are not assigned, compared, sent, read, written or passed by value; at the use.
pub fn value_fault(types: &TypeTable, t: Option<TypeId>, place: Place) -> Option<Refusal>
    ensures { refused result ≡ value_rule types.now t place }
{
    fault_unless(!has_object(types, t), place, 406)
}

/// 313: after `if`, `while`, `until` and `when` stands a boolean; at the expression.
pub fn condition_fault(t: Option<TypeId>, place: Place) -> Option<Refusal>
    ensures { refused result ≡ condition_rule t place }
{
    fault_unless(may_have(TypeId::BOOLEAN, t), place, 313)
}
