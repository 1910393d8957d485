//! Blocks: the bodies of a program, with what is known of each.
ghost use Rattle.std.specs.Prelude.{◌≡◌, IfOk};
ghost use Rattle.pfc_tree.specs.views.Stmts.{body_view};
ghost use Rattle.pfc_semantics.specs.Programs as programs;
ghost use Rattle.pfc_program.specs.Views.{block_view, guard_view, names_view};

use crate::layouts::layout_cells;
use crate::{Names, Tables};
use pfc_base::Memory;
use pfc_tree::{Body, Expr, Stmt};
use pfc_types::Meaning;

/// The guard of a guarded procedure.
#[derive(Drop)]
pub struct Guard<'a> {
    /// The names in view in it.
    pub names: Names,
    pub test: &'a Expr,
    /// The line of its `when`.
    pub line: u32,
}

/// A body, with the block around it.
#[derive(Drop)]
pub struct Block<'a> {
    /// The number of its scope, which tells the blocks apart.
    pub scope: u32,
    /// The number of the scope in which it is declared.
    pub outer: u32,
    /// The names in view in its body.
    pub names: Names,
    /// The number of the next scope of the text there.
    pub next: u32,
    pub stmts: &'a Vec<Stmt>,
    /// The line of its `begin`.
    pub first_line: u32,
    /// The line of its `end`.
    pub last_line: u32,
    /// Its variables, in their order.
    pub layout: Vec<Meaning>,
    /// How many cells its variables take.
    pub cells: u32,
    /// How many accepts stand in it, whose scopes are numbered from `next` on.
    pub accepts: u32,
    pub guard: Option<Guard<'a>>,
}

/// The numbers of a block.
#[derive(Clone, Copy)]
pub(crate) struct Numbers {
    pub scope: u32,
    pub outer: u32,
    pub next: u32,
    pub accepts: u32,
}

/// The block of a body, with the names in view, its variables and perhaps its guard. Cells of more than 32 bits are want of memory.
pub(crate) fn block_of<'a>(
    numbers: Numbers,
    names: Names,
    b: &'a Body,
    layout: Vec<Meaning>,
    guard: Option<Guard<'a>>,
    tables: Tables,
) -> Result<Block<'a>, Memory>
    ensures { IfOk result (λ block. block_view tables.entry block ≡ programs.block_of numbers.scope numbers.outer (names_view tables.entry names) numbers.next
        (body_view b.now) layout.items numbers.accepts (guard_view tables.entry guard.entry)) }
{
    let cells = layout_cells(tables.types, &layout)?;
    Ok(Block {
        scope: numbers.scope,
        outer: numbers.outer,
        names,
        next: numbers.next,
        stmts: &b.stmts,
        first_line: b.first.line,
        last_line: b.last.line,
        layout,
        cells,
        accepts: numbers.accepts,
        guard,
    })
}
