//! The blocks of bodies whose code was put.
ghost use Rattle.std.specs.Prelude.{◌≡◌, ◌≤◌, ◌-◌, length, take, drop, IfOk};
ghost use Rattle.pfc_addresses.specs.Sites.{whole_view};
ghost use Rattle.pfc_blocks.specs.Making.{IsOf, main_made, made_block, placing_view};

use crate::labels::label;
use crate::{Called, Placed};
use pfc_base::{Memory, Name};
use pfc_code::{Block, Instr};
use std::alloc::Global;

/// The instructions from one address up to another.
fn between(code: &[Instr], from: u32, to: u32) -> &[Instr]
    ensures { result.now ≡ take (to - from) (drop from code.now) }
{
    let to = code.len().min(to as usize);
    let from = to.min(from as usize);
    &code[from..to]
}

/// The block of a body that stands in this code, at most 200,000 instructions. Its only refusal is want of memory; a number of more than 32
/// bits counts as that, and so does a body that has another name in front of the one that was declared for it, which never comes.
pub fn block(
    alloc: Global,
    called: &Called,
    placed: Placed,
    code: &[Instr],
) -> Result<Block, Memory>
    requires is_of { IsOf called.now.program.now called.now.tree.now }
    requires few { length code.now ≤ 200000 }
    ensures { IfOk result (λ b. b ≡ made_block (whole_view called.now.program.now) code.now (placing_view called.now.program.now.tables placed.entry)) }
{
    let block = placed.block;
    let own = between(code, placed.entry, placed.end);
    Ok(Block {
        label: label(
            alloc,
            called.program.tables,
            block.scope,
            block.outer,
            placed.name,
        )?,
        entry: placed.entry,
        body: placed.body,
        params: called.params(block)?,
        cells: block.cells,
        operands: called.most_operands(own)?,
        level: placed.level,
        line: block.first_line,
    })
}

/// Main's block, which has this name, and whose code begins at this address. Its only refusal is want of memory; a number of more than 32
/// bits counts as that.
pub fn main_block(
    alloc: Global,
    called: &Called,
    name: &Name,
    at: u32,
    code: &[Instr],
) -> Result<Block, Memory>
    requires is_of { IsOf called.now.program.now called.now.tree.now }
    requires few { length code.now ≤ 200000 }
    ensures { IfOk result (λ b. b ≡ main_made (whole_view called.now.program.now) name.now at code.now) }
{
    let main = &called.program.main;
    let end = code.len() as u32;
    Ok(Block {
        label: name.copy(alloc)?,
        entry: at,
        body: at,
        params: 0,
        cells: main.cells,
        operands: called.most_operands(between(code, at, end))?,
        level: 0,
        line: main.first_line,
    })
}
