//! What kind of thing a name stands for.
ghost use Rattle.std.specs.Prelude.{◌≡◌};
ghost use Rattle.pfc_types.specs.Scopes as scopes;
ghost use Rattle.pfc_types.specs.rules.Kinds as kinds;
ghost use Rattle.pfc_phrases.specs.Found.{refused};
ghost use Rattle.pfc_phrases.specs.Views.{kind_view};

use crate::{fault_unless, is_same, where_so};
use pfc_base::{Place, Refusal};
use pfc_types::{Found, Meaning, TypeId};

/// What a name has to stand for at a place where only one kind can stand.
#[derive(Clone, Copy, Debug, PartialEq, Eq)]
pub enum NameKind {
    Constant,
    TypeName,
    Variable,
    Entry,
}

/// What a name in view stands for.
pub fn meaning_of(found: Option<Found>) -> Option<Meaning>
    ensures { result ≡ scopes.meaning_of found }
{
    match found {
        Some(found) => Some(found.meaning),
        None => None,
    }
}

/// Whether a name may stand where this kind is needed. A faulty name may stand anywhere.
pub fn fits(kind: NameKind, m: Meaning) -> bool
    ensures { result ≡ kinds.fits (kind_view kind) m }
{
    match m {
        Meaning::Faulty => true,
        Meaning::Constant { t: _, value: _ } => matches!(kind, NameKind::Constant),
        Meaning::Named(_) => matches!(kind, NameKind::TypeName),
        Meaning::Variable { t: _, reference: _ } => matches!(kind, NameKind::Variable),
        Meaning::Entry(_) => matches!(kind, NameKind::Entry),
        Meaning::Sub(_) | Meaning::Module(_) | Meaning::Process(_) | Meaning::Predeclared(_) =>
            false,
    }
}

/// 301: a name that is used is in view. 310: a name that is in view stands for what its place needs. At the name.
pub fn name_fault(kind: NameKind, m: Option<Meaning>, place: Place) -> Option<Refusal>
    ensures { refused result ≡ kinds.name_rules (kind_view kind) m place }
{
    match m {
        None => fault_unless(false, place, 301),
        Some(m) => fault_unless(fits(kind, m), place, 310),
    }
}

/// The type of a variable.
pub fn variable_type(m: Option<Meaning>) -> Option<TypeId>
    ensures { result ≡ kinds.variable_type m }
{
    match m {
        Some(Meaning::Variable { t, reference: _ }) => Some(t),
        _ => None,
    }
}

/// Whether a name stands for `synchronous`.
fn is_synchronous(m: Option<Meaning>) -> bool
    ensures { result ≡ kinds.is_synchronous m }
{
    match m {
        Some(Meaning::Named(t)) => is_same(t, TypeId::SYNCHRONOUS),
        _ => false,
    }
}

/// 301 and 310 of a name that is used as a type, and 411: `synchronous` stands only directly after `channel of`, as
/// `carried` says. At the name.
pub fn type_name_fault(carried: bool, m: Option<Meaning>, place: Place) -> Option<Refusal>
    ensures { refused result ≡ kinds.type_name_rules carried m place }
{
    let Some(found) = m else {
        return fault_unless(false, place, 301)
    };
    if fits(NameKind::TypeName, found) {
        fault_unless(carried || !is_synchronous(m), place, 411)
    } else {
        fault_unless(false, place, 310)
    }
}

/// The type that a name stands for; `carried` says that it stands directly after `channel of`.
pub fn named_type(carried: bool, m: Option<Meaning>) -> Option<TypeId>
    ensures { result ≡ kinds.named_type carried m }
{
    match m {
        Some(Meaning::Named(t)) => where_so(carried || !is_same(t, TypeId::SYNCHRONOUS), t),
        _ => None,
    }
}

/// A name that is declared as a type, or is faulty.
pub fn type_meaning(t: Option<TypeId>) -> Meaning
    ensures { result ≡ kinds.type_meaning t }
{
    match t {
        Some(t) => Meaning::Named(t),
        None => Meaning::Faulty,
    }
}

/// A name that is declared as a variable, or is faulty.
pub fn variable_meaning(reference: bool, t: Option<TypeId>) -> Meaning
    ensures { result ≡ kinds.variable_meaning reference t }
{
    match t {
        Some(t) => Meaning::Variable { t, reference },
        None => Meaning::Faulty,
    }
}
