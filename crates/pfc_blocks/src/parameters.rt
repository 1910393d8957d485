//! The cells of parameters and of results, block by block.
ghost use Rattle.std.specs.Prelude.{◌≡◌, take, option_map, Some, IfOk};
ghost use Rattle.pfc_types.specs.Blocks.{process_at};
ghost use Rattle.pfc_types.specs.rules.Declarations as rules;
ghost use Rattle.pfc_semantics.specs.Layouts as layouts;
ghost use Rattle.pfc_semantics.specs.Programs as programs;
ghost use Rattle.pfc_program.specs.Views.{block_view};
ghost use Rattle.pfc_translation.specs.Operands as operands;
ghost use Rattle.pfc_types.specs.declared.heads.SubHead.{SubHead};
ghost use Rattle.pfc_operands.specs.Callees.{AreCallees, program_in};
ghost use Rattle.pfc_addresses.specs.Sites.{whole_view};
ghost use Rattle.pfc_blocks.specs.Making.{IsOf, params_in, results_in};

use pfc_base::Memory;
use pfc_code::Instr;
use pfc_operands::{Callees, most_operands};
use pfc_program::{Block, Lookups, Program};
use pfc_tree::Tree;
use pfc_types::{Meaning, Scopes, SubSort, TypeTable, cells_of};
use std::alloc::Global;

/// The number of the process whose scope has this number.
fn process_with(scopes: &Scopes, i: u32) -> Option<u32>
    ensures { option_map (λ n. process_at scopes.now n) result ≡ operands.process_with scopes.now.processes i }
{
    for n in 0..scopes.processes() {
        if scopes.process_scope(n) == i {
            return Some(n);
        }
    }
    None
}

/// How many parameters the block with the scope i has.
fn formals_of(lookups: &Lookups, i: u32) -> usize
    ensures { result ≡ operands.formals_of lookups.now.scopes.now i (layouts.sub_with lookups.now.scopes.now.subs i) }
{
    let scopes = lookups.scopes;
    match lookups.sub_with(i) {
        Some(n) => scopes.sub_formals(n).len(),
        None => process_formals(scopes, i),
    }
}

/// How many parameters the process with the scope i has.
fn process_formals(scopes: &Scopes, i: u32) -> usize
    ensures { result ≡ operands.process_formals (operands.process_with scopes.now.processes i) }
{
    match process_with(scopes, i) {
        Some(n) => scopes.process_formals(n).len(),
        None => 0,
    }
}

/// How many cells a name takes: a variable those of its type, a reference and a single process one.
fn name_cells(types: &TypeTable, m: Meaning) -> u32
    ensures { result ≡ rules.name_cells types.now m }
{
    match m {
        Meaning::Variable { t, reference } => { if reference { 1 } else { cells_of(types, t) } }
        Meaning::Process(_) => 1,
        _ => 0,
    }
}

/// How many cells the first variables of a layout take. Its only refusal is a number of more than 32 bits.
fn first_cells(types: &TypeTable, layout: &[Meaning], count: usize) -> Result<u32, Memory>
    ensures { IfOk result (λ n. n ≡ programs.layout_cells types.now (take count layout.now)) }
{
    let mut cells = 0u32;
    for k in 0..layout.len().min(count) {
        match cells.checked_add(name_cells(types, layout[k])) {
            Some(sum) => cells = sum,
            None => return Err(Memory),
        }
    }
    Ok(cells)
}

/// How many cells the parameters of a block take.
fn params(program: &Program, lookups: &Lookups, block: &Block) -> Result<u32, Memory>
    requires { lookups.now.scopes.now ≡ program.now.tables.scopes.now }
    ensures { IfOk result (λ n. n ≡ operands.params_of (whole_view program.now) (block_view program.now.tables block.now)) }
{
    first_cells(
        program.tables.types,
        &block.layout,
        formals_of(lookups, block.scope),
    )
}

/// How many cells the result of a block takes: 1 for a function, else 0.
fn result_cells(lookups: &Lookups, i: u32) -> u32
    ensures { result ≡ operands.result_of (layouts.sub_with lookups.now.scopes.now.subs i) }
{
    match lookups.sub_with(i) {
        Some(n) => sort_cells(lookups.scopes.sub_sort(n)),
        None => 0,
    }
}

/// How many cells the result of such a sub takes.
fn sort_cells(sort: SubSort) -> u32
    ensures { (head : SubHead) → head.sort ≡ sort → result ≡ operands.result_of (Some head) }
{
    match sort {
        SubSort::Function(_) => 1,
        _ => 0,
    }
}

/// How many cells the parameters of each block take.
fn all_params(alloc: Global, program: &Program, lookups: &Lookups) -> Result<Vec<u32>, Memory>
    requires { lookups.now.scopes.now ≡ program.now.tables.scopes.now }
    ensures { IfOk result (λ ns. ns.items ≡ params_in program.now program.now.blocks.items) }
{
    let mut all = Vec::new(alloc);
    for b in &program.blocks {
        all.push(params(program, lookups, b)?)?;
    }
    Ok(all)
}

/// How many cells the result of each block takes.
fn all_results(alloc: Global, program: &Program, lookups: &Lookups) -> Result<Vec<u32>, Memory>
    requires { lookups.now.scopes.now ≡ program.now.tables.scopes.now }
    ensures { IfOk result (λ ns. ns.items ≡ results_in program.now program.now.blocks.items) }
{
    let mut all = Vec::new(alloc);
    for b in &program.blocks {
        all.push(result_cells(lookups, b.scope))?;
    }
    Ok(all)
}

/// What is known of the blocks of a program that are called, by their numbers.
#[derive(Drop)]
pub struct Called<'t, 'p> {
    pub program: &'p Program<'t>,
    pub tree: &'p Tree,
    lookups: Lookups<'t>,
    params: Vec<u32>,
    results: Vec<u32>,
    ghost looked_up: { lookups.scopes.now ≡ program.now.tables.scopes.now },
    ghost fits: { AreCallees (program_in tree.now program.now.tables.types.now program.now.tables.scopes.now) params.items results.items },
}

impl<'t, 'p> Called<'t, 'p> {
    ghost use Rattle.std.specs.Prelude.{◌≡◌, ◌≤◌, length, IfOk};
    ghost use Rattle.pfc_translation.specs.Operands as operands;
    ghost use Rattle.pfc_addresses.specs.Sites.{whole_view};
    ghost use Rattle.pfc_program.specs.Views.{block_view};
    ghost use Rattle.pfc_blocks.specs.Making.{IsOf};

    /// What is known of the blocks of a tree's program. Its only refusal is want of memory; a number of more than 32 bits counts as that, and
    /// so does a main body with parameters, which never comes.
    pub fn new(
        alloc: Global,
        program: &'p Program<'t>,
        tree: &'p Tree,
    ) -> Result<Called<'t, 'p>, Memory>
        requires { IsOf program.now tree.now }
        ensures program { IfOk result (λ c. c.program.now ≡ program.now) }
        ensures tree { IfOk result (λ c. c.tree.now ≡ tree.now) }
    {
        let lookups = Lookups::new(alloc, program.tables.scopes)?;
        let main = &program.main;
        if params(program, &lookups, main)? != 0 || result_cells(&lookups, main.scope) != 0 {
            return Err(Memory);
        }
        let params = all_params(alloc, program, &lookups)?;
        let results = all_results(alloc, program, &lookups)?;
        Ok(Called {
            program,
            tree,
            lookups,
            params,
            results,
        })
    }

    /// How many cells the parameters of a block take. Its only refusal is a number of more than 32 bits.
    pub(crate) fn params(&self, block: &Block) -> Result<u32, Memory>
        ensures { IfOk result (λ n. n ≡ operands.params_of (whole_view self.now.program.now) (block_view self.now.program.now.tables block.now)) }
    {
        params(self.program, &self.lookups, block)
    }

    /// The most operands that code may hold. Its only refusal is a number of more than 32 bits.
    pub(crate) fn most_operands(&self, code: &[Instr]) -> Result<u32, Memory>
        requires is_of { IsOf self.now.program.now self.now.tree.now }
        requires few { length code.now ≤ 200000 }
        ensures { IfOk result (λ n. n ≡ operands.most_operands (whole_view self.now.program.now) 0 code.now) }
    {
        let tables = self.program.tables;
        let callees = Callees {
            tree: self.tree,
            types: tables.types,
            scopes: tables.scopes,
            params: &self.params,
            results: &self.results,
        };
        match u32::try_from(most_operands(code, callees)) {
            Ok(n) => Ok(n),
            Err(_) => Err(Memory),
        }
    }
}
