//! The tables of a block.
ghost use Rattle.std.specs.Prelude.{◌≡◌, ◌+◌, ◌<◌, ◌^◌, length, IfOk};
ghost use Rattle.pfc_types.specs.Scopes.{scope_at};
ghost use Rattle.pfc_semantics.specs.Layouts.{laid_names};
ghost use Rattle.pfc_translation.specs.Sites as translation;
ghost use Rattle.pfc_addresses.specs.Rows.{accepts_from, cells_from};

use crate::Addresses;
use crate::addresses::Laid;
use crate::rows::{Row, accepts, cells};
use pfc_base::Memory;
use pfc_program::{Block, Level};
use std::alloc::Global;

/// A block whose code is put: the activations that are reached from it by static links, its own cells, and the places of the parameters
/// of its accepts.
#[derive(Drop)]
pub struct Body<'t, 'e> {
    pub addresses: &'e Addresses<'t, 'e>,
    pub block: &'e Block<'t>,
    pub(crate) linked: Vec<u32>,
    pub(crate) cells: Row,
    pub(crate) accepts: Row,
    ghost linked_held: { linked.items ≡ translation.linked addresses.now.program.now.tables.scopes.now block.now.names.view },
    ghost few_linked: { length linked.items < 2 ^ 32 },
    ghost cells_held: { cells ≡ cells_from addresses.now.program.now.tables.types.now 0 block.now.layout.items },
    ghost accepts_held: { accepts ≡ accepts_from addresses.now.program.now.tables.scopes.now.scopes
        (length (laid_names (scope_at addresses.now.program.now.tables.scopes.now.scopes block.now.scope))) block.now.next block.now.accepts },
    ghost few_accepts: { block.now.next + block.now.accepts < 2 ^ 32 },
}

/// The scopes of the activations that are reached by static links from where these levels are in view, innermost first, but for main's.
fn linked(alloc: Global, levels: &[Level], addresses: &Addresses) -> Result<Vec<u32>, Memory>
    ensures { IfOk result (λ linked. linked.items ≡ translation.linked addresses.now.program.now.tables.scopes.now levels.now) }
{
    let mut linked = Vec::new(alloc);
    for l in levels {
        if addresses.is_mains(l.scope) {
            return Ok(linked);
        }
        linked.push(l.scope)?;
    }
    Ok(linked)
}

impl<'t, 'e> Body<'t, 'e> {
    ghost use Rattle.std.specs.Prelude.{◌≡◌, ◌==◌, ◌+◌, ◌-◌, ◌≤◌, length, take, drop, position, unwrap_or, IfOk};
    ghost use Rattle.pfc_types.specs.Scopes.{scope_at};
    ghost use Rattle.pfc_semantics.specs.Layouts.{process_layout};
    ghost use Rattle.pfc_program.specs.Views.{block_view};
    ghost use Rattle.pfc_translation.specs.Sites as translation;
    ghost use Rattle.pfc_addresses.specs.Rows.{cells_from};
    ghost use Rattle.pfc_addresses.specs.Sites.{tables_of};

    /// The tables of a block. Its only refusal is want of memory; more than 2^32 cells are that too.
    pub fn new(
        alloc: Global,
        addresses: &'e Addresses<'t, 'e>,
        block: &'e Block<'t>,
    ) -> Result<Body<'t, 'e>, Memory>
        ensures program { IfOk result (λ b. b.addresses.now ≡ addresses.now) }
        ensures block { IfOk result (λ b. b.block.now ≡ block.now) }
    {
        let tables = addresses.program.tables;
        let Some(behind) = block.next.checked_add(block.accepts) else {
            return Err(Memory)
        };
        let linked = linked(alloc, block.names.levels(), addresses)?;
        if linked.len() > u32::MAX as usize {
            return Err(Memory);
        }
        let cells = cells(alloc, tables.types, &block.layout)?;
        let accepts = accepts(alloc, tables.scopes, block.scope, block.next, behind)?;
        Ok(Body {
            addresses,
            block,
            linked,
            cells,
            accepts,
        })
    }

    /// The level of the block: 0 for main, 1 for a process and for a sub of the program or of a module, one more for each sub around.
    pub fn level(&self) -> u32
        ensures { result ≡ translation.level_of (tables_of self.now).scopes.now (block_view (tables_of self.now) self.now.block.now) }
    {
        self.linked.len() as u32
    }

    /// The place of a scope among those that are linked, 0 where it is none of them.
    fn link(&self, i: u32) -> u32
        ensures { result ≡ unwrap_or (position (λ j. j == i) self.now.linked.items) 0 }
    {
        let mut n = 0;
        for j in &self.linked {
            if *j == i {
                return n;
            }
            n += 1;
        }
        0
    }

    /// How many static links lead to the activation that has the variables of the scope i.
    pub fn links_to(&self, i: u32) -> u32
        ensures { result ≡ translation.links_from (tables_of self.now).scopes.now (block_view (tables_of self.now) self.now.block.now) i }
    {
        if self.addresses.is_mains(i) {
            self.level()
        } else {
            self.link(i)
        }
    }

    /// Whether the scope i is that of an accept in the block.
    pub fn is_accept(&self, i: u32) -> bool
        ensures { result ≡ translation.is_accept (block_view (tables_of self.now) self.now.block.now) i }
    {
        let block = self.block;
        block.next <= i && i - block.next < block.accepts
    }

    /// How many variables of the block stand before the parameters of the accept with the scope i.
    pub fn before_accept(&self, i: u32) -> u32
        requires from { self.now.block.now.next ≤ i }
        requires to { i ≤ self.now.block.now.next + self.now.block.now.accepts }
        ensures { result ≡ length (process_layout (scope_at (tables_of self.now).scopes.now.scopes self.now.block.now.scope)
            (take (i - self.now.block.now.next) (drop self.now.block.now.next (tables_of self.now).scopes.now.scopes))) }
    {
        self.accepts.at((i - self.block.next) as usize)
    }

    /// The block's own variables.
    pub(crate) fn own_laid(&self) -> Laid<'_>
        ensures layout { result.layout.now ≡ self.now.block.now.layout.items }
        ensures cells { result.cells.now ≡ cells_from (tables_of self.now).types.now 0 result.layout.now }
    {
        let block = self.block;
        Laid {
            layout: &block.layout,
            cells: &self.cells,
        }
    }
}
