//! Names by their places. The tables of a program give the place of a name; here the names come from the text's tokens.
ghost use Rattle.std.specs.Prelude.{◌≡◌, ◌<◌, ℕ, List, get_or, length, IfSome};
ghost use Rattle.pfc_types.specs.declared.types.TypeId.{TypeId};
ghost use Rattle.pfc_types.specs.declared.scope.Meaning.{Meaning};

use pfc_base::{Kind, Name, Token};
use pfc_types::{Fields, Scope};

/// The name of a field of a record by its place, from 0, where the tokens hold it; they do where the record is of their text.
pub(crate) fn field_name<'t>(fields: &Fields, i: u32, tokens: &'t [Token]) -> Option<&'t Name>
    requires { i < length fields.now }
    ensures { IfSome result (λ x. (d : List ℕ × TypeId) → (get_or fields.now i d).0 ≡ x.now) }
{
    for token in tokens {
        if let Kind::Name(name) = &token.kind {
            if let Some(place) = fields.position(name) {
                if place == i {
                    return Some(name);
                }
            }
        }
    }
    None
}

/// The name of a variable by its place in the layout, from 0, where the tokens from a place on hold it, and the place of that token.
pub(crate) fn variable_name<'t>(
    names: &Scope,
    i: u32,
    tokens: &'t [Token],
    from: usize,
) -> Option<(&'t Name, usize)>
    requires { i < length names.now }
    ensures { IfSome result (λ r. (d : List ℕ × Meaning) → (get_or names.now i d).0 ≡ r.0.now) }
{
    for k in from..tokens.len() {
        if let Kind::Name(name) = &tokens[k].kind {
            if let Some(place) = names.position(name) {
                if place == i {
                    return Some((name, k));
                }
            }
        }
    }
    None
}
