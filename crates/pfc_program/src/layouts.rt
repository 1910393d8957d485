//! Layouts: the variables of a block in their order.
ghost use Rattle.std.specs.Prelude.{◌≡◌, ◌++◌, ◌-◌, ◌≤◌, take, drop, option_map, IfOk, OnOk};
ghost use Rattle.pfc_types.specs.Blocks.{sub_at};
ghost use Rattle.pfc_types.specs.Scopes.{scope_at};
ghost use Rattle.pfc_types.specs.rules.Declarations as rules;
ghost use Rattle.pfc_semantics.specs.Layouts as layouts;
ghost use Rattle.pfc_semantics.specs.Programs as programs;
ghost use Rattle.pfc_program.specs.Laid.{one_laid};

use pfc_base::Memory;
use pfc_rules::passing::names_in;
use pfc_types::{Meaning, Scopes, SubSort, TypeTable, cells_of};
use std::alloc::Global;

/// Whether a name is laid out: a variable or a single process.
pub(crate) fn is_laid(m: Meaning) -> bool
    ensures { result ≡ layouts.is_laid m }
{
    matches!(m, Meaning::Variable { .. } | Meaning::Process(_))
}

/// How many cells a name takes: a variable those of its type, a reference and a single process one.
fn name_cells(types: &TypeTable, m: Meaning) -> u32
    ensures { result ≡ rules.name_cells types.now m }
{
    match m {
        Meaning::Variable { t, reference } => { if reference { 1 } else { cells_of(types, t) } }
        Meaning::Process(_) => 1,
        _ => 0,
    }
}

/// How many cells the variables of a layout take. Its only refusal is a number of more than 32 bits.
pub(crate) fn layout_cells(types: &TypeTable, layout: &[Meaning]) -> Result<u32, Memory>
    ensures { IfOk result (λ n. n ≡ programs.layout_cells types.now layout.now) }
{
    let mut cells = 0u32;
    for m in layout {
        match cells.checked_add(name_cells(types, *m)) {
            Some(sum) => cells = sum,
            None => return Err(Memory),
        }
    }
    Ok(cells)
}

/// Lays a name out, where it is one of those.
fn lay(m: Meaning, layout: &mut Vec<Meaning>) -> Result<(), Memory>
    ensures { OnOk result (layout.new.items ≡ layout.old.items ++ one_laid m) }
{
    if is_laid(m) {
        layout.push(m)?;
    }
    Ok(())
}

/// Lays out the names of the scope i from its place k on.
fn lay_from(scopes: &Scopes, i: u32, k: usize, layout: &mut Vec<Meaning>) -> Result<(), Memory>
    ensures { OnOk result (layout.new.items ≡ layout.old.items ++ layouts.laid_names (drop k (scope_at scopes.now.scopes i))) }
{
    if scopes.len() <= i {
        return Ok(());
    }
    let scope = scopes.at(i);
    for place in k..scope.len() as usize {
        lay(scope.meaning_at(place as u32), layout)?;
    }
    Ok(())
}

/// Lays out the first k names of the scope i.
fn lay_first(scopes: &Scopes, i: u32, k: usize, layout: &mut Vec<Meaning>) -> Result<(), Memory>
    ensures { OnOk result (layout.new.items ≡ layout.old.items ++ layouts.laid_names (take k (scope_at scopes.now.scopes i))) }
{
    if scopes.len() <= i {
        return Ok(());
    }
    let scope = scopes.at(i);
    for place in 0..k.min(scope.len() as usize) {
        lay(scope.meaning_at(place as u32), layout)?;
    }
    Ok(())
}

/// Lays out a function's result.
fn lay_result(sort: SubSort, layout: &mut Vec<Meaning>) -> Result<(), Memory>
    ensures { OnOk result (layout.new.items ≡ layout.old.items ++ layouts.result_laid sort) }
{
    if let SubSort::Function(Some(t)) = sort {
        layout.push(Meaning::Variable {
            t,
            reference: false,
        })?;
    }
    Ok(())
}

/// The number of the sub whose scope has this number.
pub fn sub_with(scopes: &Scopes, i: u32) -> Option<u32>
    ensures { option_map (λ n. sub_at scopes.now n) result ≡ layouts.sub_with scopes.now.subs i }
{
    for n in 0..scopes.subs() {
        if scopes.sub_scope(n) == i {
            return Some(n);
        }
    }
    None
}

/// The layout of the block of a sub, whose scope has this number; empty where there is none.
pub(crate) fn sub_layout(alloc: Global, scopes: &Scopes, i: u32) -> Result<Vec<Meaning>, Memory>
    ensures { IfOk result (λ layout. layout.items ≡ layouts.sub_layout_at scopes.now i) }
{
    let mut layout = Vec::new(alloc);
    if let Some(n) = sub_with(scopes, i) {
        let own = scopes.sub_scope(n);
        let formals = scopes.sub_formals(n).len();
        lay_first(scopes, own, formals, &mut layout)?;
        lay_result(scopes.sub_sort(n), &mut layout)?;
        lay_from(scopes, own, formals, &mut layout)?;
    }
    Ok(layout)
}

/// Lays out the names of the accepts whose scopes are those from number `from` up to `to`.
fn lay_accepts(scopes: &Scopes, from: u32, to: u32, layout: &mut Vec<Meaning>) -> Result<(), Memory>
    requires { from ≤ to }
    ensures { OnOk result (layout.new.items ≡ layout.old.items ++ layouts.accepts_laid (take (to - from) (drop from scopes.now.scopes))) }
{
    for i in from..to {
        lay_from(scopes, i, 0, layout)?;
    }
    Ok(())
}

/// The layout of the block of a process, whose accepts have the scopes from number `from` up to `to`.
pub(crate) fn process_layout(
    alloc: Global,
    scopes: &Scopes,
    own: u32,
    from: u32,
    to: u32,
) -> Result<Vec<Meaning>, Memory>
    requires { from ≤ to }
    ensures { IfOk result (λ layout. layout.items ≡ layouts.process_layout (scope_at scopes.now.scopes own) (take (to - from) (drop from scopes.now.scopes))) }
{
    let mut layout = Vec::new(alloc);
    lay_from(scopes, own, 0, &mut layout)?;
    lay_accepts(scopes, from, to, &mut layout)?;
    Ok(layout)
}

/// Lays out what a name of the program's scope brings into main's block: itself, or the names of a module.
fn lay_main(scopes: &Scopes, m: Meaning, layout: &mut Vec<Meaning>) -> Result<(), Memory>
    ensures { OnOk result (layout.new.items ≡ layout.old.items ++ layouts.laid_as scopes.now m) }
{
    match m {
        Meaning::Module(n) => lay_from(scopes, scopes.module(n).scope, 0, layout),
        _ => lay(m, layout),
    }
}

/// The layout of main's block.
pub(crate) fn main_layout(alloc: Global, scopes: &Scopes) -> Result<Vec<Meaning>, Memory>
    ensures { IfOk result (λ layout. layout.items ≡ layouts.main_layout scopes.now (scope_at scopes.now.scopes 0)) }
{
    let mut layout = Vec::new(alloc);
    for place in 0..names_in(scopes, 0) {
        lay_main(scopes, scopes.at(0).meaning_at(place), &mut layout)?;
    }
    Ok(layout)
}
