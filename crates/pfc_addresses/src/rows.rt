//! Rows of sums: where the variables of a block begin.
ghost use Rattle.std.specs.Prelude.{◌≡◌, ◌+◌, ◌-◌, ◌≤◌, length, take, get_or, IfOk, OnOk, ◌++◌, [], ◌∷◌};
ghost use Rattle.pfc_types.specs.Scopes.{scope_at};
ghost use Rattle.pfc_types.specs.rules.Declarations as rules;
ghost use Rattle.pfc_semantics.specs.Layouts as layouts;
ghost use Rattle.pfc_program.specs.Laid.{one_laid};
ghost use Rattle.pfc_addresses.specs.Rows.{cells_from, accepts_from};

use pfc_base::Memory;
use pfc_rules::passing::names_in;
use pfc_types::{Meaning, Scopes, TypeTable, cells_of};
use std::alloc::Global;
use std::marker::Model;

/// Sums, each with the size of one thing more. A contract sees their list.
#[derive(Drop)]
pub(crate) struct Row {
    sums: Vec<u32>,
}

impl Model for Row {
    ghost use Rattle.std.specs.Prelude.{ℕ, List};

    ghost Value = { List ℕ };

    ghost view = { λ r. r.sums.items };
}

impl Row {
    /// The k-th sum, 0 where there is none.
    pub(crate) fn at(&self, k: usize) -> u32
        ensures { result ≡ get_or self.now k 0 }
    {
        match self.sums.get(k) {
            Some(sum) => *sum,
            None => 0,
        }
    }
}

/// The sum of two numbers. Its only refusal is a number of more than 32 bits.
fn sum(a: u32, b: u32) -> Result<u32, Memory>
    ensures { IfOk result (λ n. n ≡ a + b) }
{
    match a.checked_add(b) {
        Some(n) => Ok(n),
        None => Err(Memory),
    }
}

/// How many cells a name takes: a variable those of its type, a reference and a single process one.
fn name_cells(types: &TypeTable, m: Meaning) -> u32
    ensures { result ≡ rules.name_cells types.now m }
{
    match m {
        Meaning::Variable { t, reference } => { if reference { 1 } else { cells_of(types, t) } }
        Meaning::Process(_) => 1,
        _ => 0,
    }
}

/// The cells of the variables of a layout, and the cell behind them.
pub(crate) fn cells(alloc: Global, types: &TypeTable, layout: &[Meaning]) -> Result<Row, Memory>
    ensures { IfOk result (λ row. row ≡ cells_from types.now 0 layout.now) }
{
    let mut sums = Vec::new(alloc);
    let mut cell = 0;
    for m in layout {
        sums.push(cell)?;
        cell = sum(cell, name_cells(types, *m))?;
    }
    sums.push(cell)?;
    Ok(Row { sums })
}

/// Whether a name is laid out: a variable or a single process.
fn is_laid(m: Meaning) -> bool
    ensures { result ≡ layouts.is_laid m }
{
    matches!(m, Meaning::Variable { .. } | Meaning::Process(_))
}

/// How many variables a name brings into a layout: itself, or none.
fn size(m: Meaning) -> u32
    ensures { result ≡ length (one_laid m) }
{
    if is_laid(m) { 1 } else { 0 }
}

/// How many names of the scope i are laid out.
fn laid_in(scopes: &Scopes, i: u32) -> Result<u32, Memory>
    ensures { IfOk result (λ n. n ≡ length (layouts.laid_names (scope_at scopes.now.scopes i))) }
{
    let mut n = 0;
    for k in 0..names_in(scopes, i) {
        n = sum(n, size(scopes.at(i).meaning_at(k)))?;
    }
    Ok(n)
}

/// How many variables stand in the layout of a process before those of each of its accepts, whose scopes are numbered from `from` up to
/// `to`. Its own scope is number `own`.
pub(crate) fn accepts(
    alloc: Global,
    scopes: &Scopes,
    own: u32,
    from: u32,
    to: u32,
) -> Result<Row, Memory>
    requires { from ≤ to }
    ensures { IfOk result (λ row. row ≡ accepts_from scopes.now.scopes (length (layouts.laid_names (scope_at scopes.now.scopes own))) from (to - from)) }
{
    let mut sums = Vec::new(alloc);
    let mut n = laid_in(scopes, own)?;
    for i in from..to {
        sums.push(n)?;
        n = sum(n, laid_in(scopes, i)?)?;
    }
    sums.push(n)?;
    Ok(Row { sums })
}
