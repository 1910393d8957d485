//! Constants, labels and `any` where names are in view.
ghost use Rattle.std.specs.Prelude.{◌≡◌, option_map, Some};
ghost use Rattle.pfc_tree.specs.views.Exprs.{desig_view};
ghost use Rattle.pfc_types.specs.rules.Constants as constants;
ghost use Rattle.pfc_types.specs.rules.Statements as rules;
ghost use Rattle.pfc_semantics.specs.Statements as statements;
ghost use Rattle.pfc_phrases.specs.Views.{ordinal_view};
ghost use Rattle.pfc_program.specs.Views.{names_view};

use crate::{Names, Tables, find};
use pfc_phrases::{Ordinal, char_value, is_any, meaning_of, named_constant, signed_value};
use pfc_tree::{Constant, Desig};
use pfc_types::TypeId;

/// The value of a constant, None where it is faulty.
pub fn constant_value(tables: Tables, names: &Names, c: &Constant) -> Option<Ordinal>
    ensures { option_map ordinal_view result ≡ constants.constant_value tables.entry.scopes.now.scopes names.now.view c.now }
{
    match c {
        Constant::Number(sign, n, _) => Some(Ordinal {
            t: TypeId::INTEGER,
            value: signed_value(*sign, *n),
        }),
        Constant::Named(sign, x, _) => named_constant(*sign, meaning_of(find(tables, names, x))),
        Constant::Literal(text, _) => char_value(text.bytes()),
    }
}

/// Whether a label of a `case` is this number.
pub fn is_label(tables: Tables, names: &Names, n: i32, label: &Constant) -> bool
    ensures { result ≡ statements.is_label (names_view tables.entry names.now) n label.now }
{
    match constant_value(tables, names, label) {
        Some(o) => o.value == n,
        None => false,
    }
}

/// Whether one of the labels of an arm is this number.
pub fn are_labels(tables: Tables, names: &Names, n: i32, labels: &[Constant]) -> bool
    ensures { result ≡ statements.are_labels (names_view tables.entry names.now) n labels.now }
{
    for label in labels {
        if is_label(tables, names, n, label) {
            return true;
        }
    }
    false
}

/// Whether a designator is `any`, alone, as it is predeclared.
pub fn names_any(tables: Tables, names: &Names, d: &Desig) -> bool
    ensures { result ≡ rules.names_any (names_view tables.entry names.now) (Some (desig_view d.now)) }
{
    match d.selectors.as_slice() {
        [] => is_any(meaning_of(find(tables, names, &d.name))),
        [_first, _rest @ ..] => false,
    }
}
