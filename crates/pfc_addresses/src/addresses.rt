//! The tables of a program.
ghost use Rattle.std.specs.Prelude.{◌≡◌, ◌<◌, ◌^◌, length, map, IfOk};
ghost use Rattle.pfc_types.specs.declared.heads.ModuleHead.{ModuleHead};
ghost use Rattle.pfc_program.specs.declared.blocks.Block.{Block};
ghost use Rattle.pfc_program.specs.Firsts.{HoldFirsts};
ghost use Rattle.pfc_addresses.specs.Holding.{HoldCells};
ghost use Rattle.pfc_addresses.specs.Rows.{cells_from};

use crate::rows::{Row, cells};
use pfc_base::Memory;
use pfc_program::{Block, Index, Program};
use pfc_types::{Meaning, Scopes, TypeTable};
use std::alloc::Global;

/// What code asks of a program: which blocks and modules there are, by their scopes, and the cells of their variables.
#[derive(Drop)]
pub struct Addresses<'t, 'p> {
    pub program: &'p Program<'t>,
    pub(crate) blocks: Index,
    pub(crate) modules: Index,
    pub(crate) cells: Vec<Row>,
    pub(crate) main_cells: Row,
    ghost blocks_held: { HoldFirsts (λ (b : Block). b.scope) program.now.blocks.items blocks.firsts.items },
    ghost modules_held: { HoldFirsts (λ (m : ModuleHead). m.scope) program.now.tables.scopes.now.modules modules.firsts.items },
    ghost cells_held: { HoldCells program.now.tables.types.now program.now.blocks.items cells.items },
    ghost main_held: { main_cells ≡ cells_from program.now.tables.types.now 0 program.now.main.layout.items },
    ghost few_blocks: { length program.now.blocks.items < 2 ^ 32 },
}

/// A layout, and the cells of its variables.
#[derive(Clone, Copy)]
pub(crate) struct Laid<'e> {
    pub layout: &'e [Meaning],
    pub cells: &'e Row,
}

/// The scopes of blocks, in their order.
fn block_scopes(alloc: Global, blocks: &Vec<Block>) -> Result<Vec<u32>, Memory>
    ensures { IfOk result (λ keys. keys.items ≡ map (λ (b : Block). b.scope) blocks.now.items) }
{
    let mut keys = Vec::new(alloc);
    for b in blocks {
        keys.push(b.scope)?;
    }
    Ok(keys)
}

/// The scopes of modules, in their order.
fn module_scopes(alloc: Global, scopes: &Scopes) -> Result<Vec<u32>, Memory>
    ensures { IfOk result (λ keys. keys.items ≡ map (λ (m : ModuleHead). m.scope) scopes.now.modules) }
{
    let mut keys = Vec::new(alloc);
    for n in 0..scopes.modules() {
        keys.push(scopes.module(n).scope)?;
    }
    Ok(keys)
}

/// The cells of the variables of each block.
fn block_cells(alloc: Global, types: &TypeTable, blocks: &Vec<Block>) -> Result<Vec<Row>, Memory>
    ensures { IfOk result (λ rows. HoldCells types.now blocks.now.items rows.items) }
{
    let mut rows = Vec::new(alloc);
    for b in blocks {
        rows.push(cells(alloc, types, &b.layout)?)?;
    }
    Ok(rows)
}

/// Where the blocks stand, by their scopes.
fn block_index(alloc: Global, blocks: &Vec<Block>) -> Result<Index, Memory>
    ensures { IfOk result (λ x. HoldFirsts (λ (b : Block). b.scope) blocks.now.items x.firsts.items) }
{
    Index::new(alloc, &block_scopes(alloc, blocks)?)
}

/// Where the modules stand, by their scopes.
fn module_index(alloc: Global, scopes: &Scopes) -> Result<Index, Memory>
    ensures { IfOk result (λ x. HoldFirsts (λ (m : ModuleHead). m.scope) scopes.now.modules x.firsts.items) }
{
    Index::new(alloc, &module_scopes(alloc, scopes)?)
}

impl<'t, 'p> Addresses<'t, 'p> {
    ghost use Rattle.std.specs.Prelude.{◌≡◌, ◌==◌, position, unwrap_or, IfOk};
    ghost use Rattle.pfc_semantics.specs.Programs as programs;
    ghost use Rattle.pfc_program.specs.Views.{block_view, blocks_view};
    ghost use Rattle.pfc_translation.specs.Sites as translation;
    ghost use Rattle.pfc_addresses.specs.Rows.{cells_from};

    /// The tables of a program. Its only refusal is want of memory; more than 2^32 blocks, modules or cells are that too.
    pub fn new(alloc: Global, program: &'p Program<'t>) -> Result<Addresses<'t, 'p>, Memory>
        ensures { IfOk result (λ a. a.program.now ≡ program.now) }
    {
        let (types, scopes) = (program.tables.types, program.tables.scopes);
        if program.blocks.len() > u32::MAX as usize {
            return Err(Memory);
        }
        let blocks = block_index(alloc, &program.blocks)?;
        let modules = module_index(alloc, scopes)?;
        let main_cells = cells(alloc, types, &program.main.layout)?;
        let cells = block_cells(alloc, types, &program.blocks)?;
        Ok(Addresses {
            program,
            blocks,
            modules,
            cells,
            main_cells,
        })
    }

    /// The number of the block with the scope i, 0 where there is none.
    pub fn block_number(&self, i: u32) -> u32
        ensures { result ≡ unwrap_or (position (λ b. b.scope == i) (blocks_view self.now.program.now.tables self.now.program.now.blocks.items)) 0 }
    {
        self.blocks.at(i).unwrap_or(0)
    }

    /// The block with the scope i, main's where there is none.
    pub fn block_at(&self, i: u32) -> &Block<'t>
        ensures { block_view self.now.program.now.tables result.now ≡ programs.found_block
            (blocks_view self.now.program.now.tables self.now.program.now.blocks.items) i (block_view self.now.program.now.tables self.now.program.now.main) }
    {
        let program = self.program;
        match self.blocks.at(i) {
            Some(n) => &program.blocks[n as usize],
            None => &program.main,
        }
    }

    /// The variables of the block with the scope i.
    pub(crate) fn laid_at(&self, i: u32) -> Laid<'_>
        ensures layout { result.layout.now ≡ (programs.found_block (blocks_view self.now.program.now.tables self.now.program.now.blocks.items) i
            (block_view self.now.program.now.tables self.now.program.now.main)).layout }
        ensures cells { result.cells.now ≡ cells_from self.now.program.now.tables.types.now 0 result.layout.now }
    {
        let program = self.program;
        match self.blocks.at(i) {
            Some(n) => Laid {
                layout: &program.blocks[n as usize].layout,
                cells: &self.cells[n as usize],
            },
            None => self.main_laid(),
        }
    }

    /// The variables of main.
    pub(crate) fn main_laid(&self) -> Laid<'_>
        ensures layout { result.layout.now ≡ self.now.program.now.main.layout.items }
        ensures cells { result.cells.now ≡ cells_from self.now.program.now.tables.types.now 0 result.layout.now }
    {
        let program = self.program;
        Laid {
            layout: &program.main.layout,
            cells: &self.main_cells,
        }
    }

    /// The place of the module with the scope i, None exactly where there is none.
    pub fn module_of(&self, i: u32) -> Option<u32>
        ensures { result ≡ translation.module_of self.now.program.now.tables.scopes.now i }
    {
        self.modules.at(i)
    }

    /// Whether the variables of the scope i are main's.
    pub fn is_mains(&self, i: u32) -> bool
        ensures { result ≡ translation.is_mains self.now.program.now.tables.scopes.now i }
    {
        i == 0 || self.module_of(i).is_some()
    }
}
