//! Images of a few blocks.
ghost use Rattle.std.specs.Prelude.{◌≡◌, [], ◌∷◌, length, IfOk};
ghost use Rattle.pfc_code.specs.Images.{plain_image};
ghost use Rattle.pfc_code.specs.declared.instructions.Instr.{Instr};
ghost use Rattle.pfc_stacks.specs.Starts.{start_stacks};
ghost use Rattle.pfc_stacks_tests.specs.Samples.{plain_block, block_by, sample_blocks, at_start};

use pfc_base::{Memory, Name, Text};
use pfc_code::{Block, Image, Instr, Object, ProcessInfo};
use std::alloc::Global;

/// A body without parameters.
fn plain_block(alloc: Global, cells: u32) -> Result<Block, Memory>
    ensures { IfOk result (λ b. b ≡ plain_block cells) }
{
    Ok(Block {
        label: Name::new(alloc, b"p")?,
        entry: 0,
        body: 0,
        params: 0,
        cells,
        operands: 0,
        level: 0,
        line: 1,
    })
}

fn process_of(alloc: Global, block: u32) -> Result<ProcessInfo, Memory>
    ensures { IfOk result (λ process. process.block ≡ block) }
{
    let label = Text::new(alloc, b"p")?;
    Ok(ProcessInfo { block, label })
}

/// Two processes and two blocks without parameters: a sub with so many cells, and main with so many.
pub(super) fn two_blocks(alloc: Global, sub: u32, main: u32) -> Result<Image, Memory>
    ensures blocks { IfOk result (λ image. image.blocks.items ≡ plain_block sub ∷ plain_block main ∷ []) }
    ensures processes { IfOk result (λ image. length image.processes.items ≡ 2) }
{
    Ok(Image {
        code: vec![in alloc; Instr::END]?,
        lines: vec![in alloc; 1]?,
        blocks: vec![in alloc; plain_block(alloc, sub)?, plain_block(alloc, main)?]?,
        processes: vec![in alloc; process_of(alloc, 1)?, process_of(alloc, 0)?]?,
        objects: Vec::new(alloc),
        texts: Vec::new(alloc),
        semaphores: 0,
        channels: 0,
        conditions: Vec::new(alloc),
        monitors: 0,
        scans: Vec::new(alloc),
        arms: 0,
    })
}

/// A block by its entry, its body, its parameters, its cells, its operands and its level.
fn block_of(alloc: Global, numbers: [u32; 6]) -> Result<Block, Memory>
    ensures { IfOk result (λ b. b ≡ block_by numbers) }
{
    let label = Name::new(alloc, b"p")?;
    let [entry, body, params, cells, operands, level] = numbers;
    Ok(Block {
        label,
        entry,
        body,
        params,
        cells,
        operands,
        level,
        line: 1,
    })
}

/// A function in a procedure, the procedure, a process, a guarded procedure and main.
fn blocks(alloc: Global) -> Result<Vec<Block>, Memory>
    ensures { IfOk result (λ blocks. blocks.items ≡ sample_blocks) }
{
    Ok(vec![in alloc;
        block_of(alloc, [20, 20, 1, 3, 4, 2])?,
        block_of(alloc, [10, 10, 2, 3, 6, 1])?,
        block_of(alloc, [30, 30, 1, 2, 3, 1])?,
        block_of(alloc, [40, 43, 0, 1, 5, 1])?,
        block_of(alloc, [0, 0, 0, 4, 8, 0])?,
    ]?)
}

/// Two processes, main and one of the third block, with a call of the function and one instruction as the code. Main's second variable is object 5.
pub(super) fn image_of(alloc: Global, instr: Instr) -> Result<Image, Memory>
    ensures code { IfOk result (λ image. image.code.items ≡ Instr.CALL 0 0 ∷ instr ∷ []) }
    ensures blocks { IfOk result (λ image. image.blocks.items ≡ sample_blocks) }
    ensures start { IfOk result (λ image. start_stacks (plain_image image) ≡ at_start) }
    ensures few { IfOk result (λ image. length image.processes.items ≡ 2) }
{
    Ok(Image {
        code: vec![in alloc; Instr::CALL(0, 0), instr]?,
        lines: vec![in alloc; 7, 8]?,
        blocks: blocks(alloc)?,
        processes: vec![in alloc; process_of(alloc, 4)?, process_of(alloc, 2)?]?,
        objects: vec![in alloc; Object { cell: 1, number: 5 }]?,
        texts: Vec::new(alloc),
        semaphores: 0,
        channels: 0,
        conditions: Vec::new(alloc),
        monitors: 0,
        scans: Vec::new(alloc),
        arms: 0,
    })
}
