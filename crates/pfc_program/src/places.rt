//! The places of names in the layouts of their blocks.
ghost use Rattle.std.specs.Prelude.{◌≡◌, ℕ, ◌+◌, ◌<◌, ◌==◌, [], length, get_or, position, option_map, IfOk};
ghost use Rattle.pfc_types.specs.Scopes.{scope_at};
ghost use Rattle.pfc_types.specs.Blocks.{sub_at};
ghost use Rattle.pfc_semantics.specs.Layouts as layouts;
ghost use Rattle.pfc_program.specs.Laid.{one_laid};
ghost use Rattle.pfc_program.specs.Places.{main_places, block_places, HoldPlaces, HoldResults};

use crate::layouts::is_laid;
use crate::lookups::Lookups;
use pfc_base::Memory;
use pfc_rules::passing::names_in;
use pfc_types::{Meaning, Scopes, SubSort};
use std::alloc::Global;
use std::marker::Model;

/// The places of the names of one scope, in its order. A contract sees their list.
#[derive(Drop)]
pub(crate) struct Row {
    places: Vec<u32>,
}

impl Model for Row {
    ghost use Rattle.std.specs.Prelude.{ℕ, List};

    ghost Value = { List ℕ };

    ghost view = { λ r. r.places.items };
}

impl Row {
    /// The place of the k-th name, 0 where there is none.
    fn at(&self, k: u32) -> u32
        ensures { result ≡ get_or self.now k 0 }
    {
        match self.places.get(k as usize) {
            Some(place) => *place,
            None => 0,
        }
    }
}

/// The places of all names and of the results of functions.
#[derive(Drop)]
pub(crate) struct Places {
    rows: Vec<Row>,
    results: Vec<u32>,
}

impl Places {
    /// The places in the layouts of a program.
    pub fn new(alloc: Global, lookups: &Lookups) -> Result<Places, Memory>
        ensures rows { IfOk result (λ p. HoldPlaces lookups.now.scopes.now p.rows.items) }
        ensures results { IfOk result (λ p. HoldResults lookups.now.scopes.now p.results.items) }
    {
        let rows = rows(alloc, lookups)?;
        let results = results(alloc, lookups.scopes)?;
        Ok(Places { rows, results })
    }

    /// The place of the k-th name of the scope i.
    pub fn place(&self, i: u32, k: u32) -> u32
        ensures { result ≡ get_or (get_or self.now.rows.items i []) k 0 }
    {
        match self.rows.get(i as usize) {
            Some(row) => row.at(k),
            None => 0,
        }
    }

    /// The place of the result of the n-th sub.
    pub fn result(&self, n: u32) -> u32
        ensures { result ≡ get_or self.now.results.items n 0 }
    {
        match self.results.get(n as usize) {
            Some(place) => *place,
            None => 0,
        }
    }
}

/// The rows of all scopes.
fn rows(alloc: Global, lookups: &Lookups) -> Result<Vec<Row>, Memory>
    ensures { IfOk result (λ rows. HoldPlaces lookups.now.scopes.now rows.items) }
{
    let mut rows = Vec::new(alloc);
    for i in 0..lookups.scopes.len() {
        rows.push(scope_row(alloc, lookups, i)?)?;
    }
    Ok(rows)
}

/// The row of the scope i.
fn scope_row(alloc: Global, lookups: &Lookups, i: u32) -> Result<Row, Memory>
    ensures { IfOk result (λ row. (k : ℕ) → k < length (scope_at lookups.now.scopes.now.scopes i) →
        get_or row k 0 ≡ layouts.variable_place lookups.now.scopes.now i k) }
{
    if i == 0 {
        let places = main_row(alloc, lookups.scopes)?;
        return Ok(Row { places });
    }
    let places = block_row(alloc, lookups, i)?;
    Ok(Row { places })
}

/// The places of the results of all subs.
fn results(alloc: Global, scopes: &Scopes) -> Result<Vec<u32>, Memory>
    ensures { IfOk result (λ results. HoldResults scopes.now results.items) }
{
    let mut results = Vec::new(alloc);
    for n in 0..scopes.subs() {
        let Ok(place) = u32::try_from(scopes.sub_formals(n).len()) else {
            return Err(Memory)
        };
        results.push(place)?;
    }
    Ok(results)
}

/// The sum of two numbers. Its only refusal is a number of more than 32 bits.
pub(crate) fn added(a: u32, b: u32) -> Result<u32, Memory>
    ensures { IfOk result (λ n. n ≡ a + b) }
{
    match a.checked_add(b) {
        Some(n) => Ok(n),
        None => Err(Memory),
    }
}

/// How many variables a name brings into a layout.
fn size(m: Meaning) -> u32
    ensures { result ≡ length (one_laid m) }
{
    if is_laid(m) { 1 } else { 0 }
}

/// How many variables the names of the scope i bring into a layout.
fn scope_size(scopes: &Scopes, i: u32) -> Result<u32, Memory>
    ensures { IfOk result (λ n. n ≡ length (layouts.laid_names (scope_at scopes.now.scopes i))) }
{
    let mut n = 0;
    for k in 0..names_in(scopes, i) {
        n = added(n, size(scopes.at(i).meaning_at(k)))?;
    }
    Ok(n)
}

/// How many variables a name of the program's scope brings into main's block: itself, or those of a module.
pub(crate) fn main_size(scopes: &Scopes, m: Meaning) -> Result<u32, Memory>
    ensures { IfOk result (λ n. n ≡ length (layouts.laid_as scopes.now m)) }
{
    match m {
        Meaning::Module(n) => scope_size(scopes, scopes.module(n).scope),
        _ => Ok(size(m)),
    }
}

/// The places of the names of the program's scope.
fn main_row(alloc: Global, scopes: &Scopes) -> Result<Vec<u32>, Memory>
    ensures { IfOk result (λ row. row.items ≡ main_places scopes.now 0 (scope_at scopes.now.scopes 0)) }
{
    let mut row = Vec::new(alloc);
    let mut n = 0;
    for k in 0..names_in(scopes, 0) {
        row.push(n)?;
        n = added(n, main_size(scopes, scopes.at(0).meaning_at(k))?)?;
    }
    Ok(row)
}

/// How many variables a function's result is.
fn result_size(sort: SubSort) -> u32
    ensures { result ≡ length (layouts.result_laid sort) }
{
    match sort {
        SubSort::Function(Some(_)) => 1,
        _ => 0,
    }
}

/// How many variables of a sub's result stand before the place k of its scope: the result stands behind the parameters.
fn behind_result(scopes: &Scopes, sub: Option<u32>, k: u32) -> u32
    ensures { result ≡ layouts.behind_result (option_map (λ n. sub_at scopes.now n) sub) k }
{
    let Some(n) = sub else { return 0 };
    if (k as usize) < scopes.sub_formals(n).len() {
        0
    } else {
        result_size(scopes.sub_sort(n))
    }
}

/// The places of the names of the scope i, which is not the program's.
fn block_row(alloc: Global, lookups: &Lookups, i: u32) -> Result<Vec<u32>, Memory>
    ensures { IfOk result (λ row. row.items ≡ block_places (layouts.sub_with lookups.now.scopes.now.subs i)
        (layouts.before_scope lookups.now.scopes.now (position (λ m. m.scope == i) lookups.now.scopes.now.modules)) 0
        (scope_at lookups.now.scopes.now.scopes i)) }
{
    let scopes = lookups.scopes;
    let mut row = Vec::new(alloc);
    let mut n = lookups.before_scope(i);
    let sub = lookups.sub_with(i);
    for k in 0..names_in(scopes, i) {
        row.push(added(n, behind_result(scopes, sub, k))?)?;
        n = added(n, size(scopes.at(i).meaning_at(k)))?;
    }
    Ok(row)
}
