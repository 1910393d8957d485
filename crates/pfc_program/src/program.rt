//! What is known of a program before anything runs.
ghost use Rattle.pfc_program.specs.Places.{HoldPlaces, HoldResults};

use crate::counts::behind_parts;
use crate::inits::{ends_of_resources, inits, main_block};
use crate::lookups::Lookups;
use crate::places::Places;
use crate::walk::{Home, parts};
use crate::{Block, Tables};
use pfc_base::Memory;
use pfc_tree::Part;
use pfc_types::Checked;
use std::alloc::Global;

/// What is known of a checked tree before anything runs.
#[derive(Drop)]
pub struct Program<'a> {
    pub tables: Tables<'a>,
    /// The bodies of subs, guarded procedures and processes, in the order of their `begin`.
    pub blocks: Vec<Block<'a>>,
    /// The initialising bodies, in the order of the text.
    pub modules: Vec<Block<'a>>,
    pub main: Block<'a>,
    /// The line of each resource's final `end`, in the order of the text.
    pub resource_ends: Vec<u32>,
    pub(crate) places: Places,
    ghost placed: { HoldPlaces tables.scopes.now places.rows.items },
    ghost results_placed: { HoldResults tables.scopes.now places.results.items },
}

impl<'a> Program<'a> {
    ghost use Rattle.std.specs.Prelude.{◌≡◌, ◌==◌, position, unwrap_or, IfOk};
    ghost use Rattle.std.specs.List.{position_from};
    ghost use Rattle.pfc_tree.specs.views.Parts.{tree_view};
    ghost use Rattle.pfc_semantics.specs.Programs as programs;
    ghost use Rattle.pfc_program.specs.Views.{tables_view, block_view, blocks_view};

    /// What is known of a checked tree. Its only refusal is want of memory.
    pub fn new(alloc: Global, checked: &'a Checked) -> Result<Program<'a>, Memory>
        ensures state { IfOk result (λ g. tables_view g.tables ≡ (programs.program_of (tree_view checked.now.0)).state) }
        ensures blocks { IfOk result (λ g. blocks_view g.tables g.blocks.items ≡ (programs.program_of (tree_view checked.now.0)).blocks) }
        ensures modules { IfOk result (λ g. blocks_view g.tables g.modules.items ≡ (programs.program_of (tree_view checked.now.0)).modules) }
        ensures main { IfOk result (λ g. block_view g.tables g.main ≡ (programs.program_of (tree_view checked.now.0)).main) }
        ensures resource_ends { IfOk result (λ g. g.resource_ends.items ≡ (programs.program_of (tree_view checked.now.0)).resource_ends) }
    {
        let tree = checked.tree();
        let tables = Tables {
            types: checked.types(),
            scopes: checked.scopes(),
        };
        let home = Home {
            alloc,
            tables,
            process: false,
            scope: 0,
            outer: &[],
        };
        let all: &[Part] = &tree.parts;
        let mut blocks = Vec::new(alloc);
        parts(all, 0, 1, home, &mut blocks)?;
        let modules = inits(alloc, all, tables)?;
        let main = main_block(&tree.body, behind_parts(all, 1)?, home)?;
        let resource_ends = ends_of_resources(alloc, all)?;
        let places = Places::new(alloc, &Lookups::new(alloc, tables.scopes)?)?;
        Ok(Program {
            tables,
            blocks,
            modules,
            main,
            resource_ends,
            places,
        })
    }

    /// The block whose scope has this number, and main's where there is none.
    pub fn block_at(&self, scope: u32) -> &Block<'a>
        ensures { block_view self.now.tables result.now ≡ programs.found_block (blocks_view self.now.tables self.now.blocks.items) scope
            (block_view self.now.tables self.now.main) }
    {
        for b in &self.blocks {
            if b.scope == scope {
                return b;
            }
        }
        &self.main
    }

    /// The place of the block whose scope has this number in the order of `begin`, None where there is none.
    fn place_of(&self, scope: u32) -> Option<u64>
        ensures { result ≡ position_from (λ b. b.scope == scope) 0 (blocks_view self.now.tables self.now.blocks.items) }
    {
        let mut n = 0;
        for b in &self.blocks {
            if b.scope == scope {
                return Some(n);
            }
            n += 1;
        }
        None
    }

    /// The place of the block whose scope has this number in the order of `begin`, by which a guarded procedure is known; 0 where
    /// there is none.
    pub fn block_number(&self, scope: u32) -> u64
        ensures { result ≡ unwrap_or (position (λ b. b.scope == scope) (blocks_view self.now.tables self.now.blocks.items)) 0 }
    {
        self.place_of(scope).unwrap_or(0)
    }
}
