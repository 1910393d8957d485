//! A machine of main and one more process.
ghost use Rattle.std.specs.Prelude.{◌≡◌, ℕ, List, [], None, IfOk};
ghost use Rattle.pfc_code.specs.Images.{plain_image};
ghost use Rattle.pfc_machines.specs.Machines.{start_machine, CanStart};
ghost use Rattle.pfc_machines_tests.specs.Samples.{block_by, sample_blocks, machine_with, sample_machine};

use pfc_base::{Memory, Name, Text};
use pfc_code::{Block, Image, Instr, ProcessInfo};
use pfc_machines::{Machine, Scan};
use std::alloc::Global;

/// A block by its entry, its parameters, its cells and its line.
fn block_of(alloc: Global, entry: u32, params: u32, cells: u32, line: u32) -> Result<Block, Memory>
    ensures { IfOk result (λ b. b ≡ block_by entry params cells line) }
{
    Ok(Block {
        label: Name::new(alloc, b"p")?,
        entry,
        body: entry,
        params,
        cells,
        operands: 8,
        level: 0,
        line,
    })
}

fn process_of(alloc: Global, block: u32) -> Result<ProcessInfo, Memory>
    ensures { IfOk result (λ process. process.block ≡ block) }
{
    let label = Text::new(alloc, b"p")?;
    Ok(ProcessInfo { block, label })
}

/// Main, which has each instruction that makes an alternative, one more process, a block with more cells than there is place for, and two
/// resources.
pub(super) fn image_of(alloc: Global) -> Result<Image, Memory>
    ensures blocks { IfOk result (λ image. image.blocks.items ≡ sample_blocks) }
    ensures can { IfOk result (λ image. CanStart (plain_image image)) }
    ensures start { IfOk result (λ image. (input : List ℕ) → (seed : ℕ) → start_machine (plain_image image) input seed ≡ machine_with [] None None input seed) }
{
    Ok(Image {
        code: vec![in alloc;
            Instr::ACC(0, 0, 1),
            Instr::END,
            Instr::ARMS(2, 7),
            Instr::ARMR(2, 7),
            Instr::ARMA(1, 0, 1, 7),
            Instr::ARMT(7),
            Instr::ARMX,
            Instr::END,
        ]?,
        lines: vec![in alloc; 1]?,
        blocks: vec![in alloc;
            block_of(alloc, 0, 1, 1, 5)?,
            block_of(alloc, 1, 1, 16_377, 6)?,
            block_of(alloc, 2, 0, 2, 9)?,
        ]?,
        processes: vec![in alloc; process_of(alloc, 2)?, process_of(alloc, 0)?]?,
        objects: Vec::new(alloc),
        texts: Vec::new(alloc),
        semaphores: 0,
        channels: 0,
        conditions: Vec::new(alloc),
        monitors: 0,
        scans: vec![in alloc; 66, 77]?,
        arms: 4,
    })
}

/// Before the first action, with two operands of main over 50, of which the last is the top, and a scan of main.
pub(super) fn machine_of(
    alloc: Global,
    image: &Image,
    a: i64,
    b: i64,
    scan: Option<Scan>,
    input: &[u8],
    seed: u64,
) -> Result<Machine, Memory>
    requires can { CanStart (plain_image image.now) }
    requires start { (input : List ℕ) → (seed : ℕ) → start_machine (plain_image image.now) input seed ≡ machine_with [] None None input seed }
    ensures { IfOk result (λ m. m ≡ sample_machine a b scan None input.now seed) }
{
    let mut machine = Machine::start(alloc, image, input, seed)?;
    machine.stacks.push(0, 50);
    machine.stacks.push(0, a);
    machine.stacks.push(0, b);
    machine.descriptors.set_scan(0, scan);
    Ok(machine)
}
