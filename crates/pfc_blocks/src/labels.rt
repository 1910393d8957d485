//! The labels of blocks.
ghost use Rattle.std.specs.Prelude.{◌≡◌, position, IfOk};
ghost use Rattle.pfc_types.specs.Scopes.{scope_at};
ghost use Rattle.pfc_program.specs.Views.{tables_view};
ghost use Rattle.pfc_translation.specs.Images as images;

use pfc_base::{Memory, Name};
use pfc_program::Tables;
use pfc_types::{Meaning, Scope, Scopes, TypeForm, TypeTable};
use std::alloc::Global;

/// Whether a name of this meaning stands for the block with the scope i.
fn names_block(types: &TypeTable, scopes: &Scopes, i: u32, m: Meaning) -> bool
    ensures { result ≡ images.names_block (record { forms = types.now; blocks = scopes.now }) i m }
{
    match m {
        Meaning::Sub(n) => scopes.sub_scope(n) == i,
        Meaning::Process(n) => scopes.process_scope(n) == i,
        Meaning::Named(t) => match types.form(t) {
            Some(TypeForm::Process(n)) => scopes.process_scope(*n) == i,
            _ => false,
        },
        _ => false,
    }
}

/// The place of the first name that stands for the block with the scope i.
fn label_place(tables: Tables, names: &Scope, i: u32) -> Option<u32>
    ensures { result ≡ position (λ x. images.names_block (tables_view tables.entry) i x.1) names.now }
{
    for k in 0..names.len() {
        if names_block(tables.types, tables.scopes, i, names.meaning_at(k)) {
            return Some(k);
        }
    }
    None
}

/// The label of the block with the scope i, for which `name` was declared in the scope `outer`. It is refused for want of memory; that the
/// block has no other name in front, which never comes, counts as one.
pub(crate) fn label(
    alloc: Global,
    tables: Tables,
    i: u32,
    outer: u32,
    name: &Name,
) -> Result<Name, Memory>
    ensures { IfOk result (λ x. x ≡ images.label_in (tables_view tables.entry) i (scope_at tables.entry.scopes.now.scopes outer)) }
{
    let scopes = tables.scopes;
    if scopes.len() <= outer {
        return Err(Memory);
    }
    let names = scopes.at(outer);
    let Some(k) = label_place(tables, names, i) else {
        return Err(Memory);
    };
    let Some(place) = names.position(name) else {
        return Err(Memory);
    };
    if place == k {
        name.copy(alloc)
    } else {
        Err(Memory)
    }
}
