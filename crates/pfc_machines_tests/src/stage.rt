//! Children that take turns, while main waits at `coend`.
ghost use Rattle.std.specs.Prelude.{◌≡◌, ◌≤◌, ◌<◌, ◌+◌, None, Some, [], length, MatchOption, IfOk};
ghost use Rattle.pfc_code.specs.Images.{plain_image};
ghost use Rattle.pfc_stacks.specs.Stacks.{stack_of, operands_of};
ghost use Rattle.pfc_world.specs.Tickets.{IsNew};
ghost use Rattle.pfc_machines.specs.Actions.{Acts};
ghost use Rattle.pfc_machines.specs.Machines.{CanStart};

use pfc_base::{Memory, Name, Text};
use pfc_code::{Block, Image, Instr, ProcessInfo};
use pfc_machines::Machine;
use pfc_stacks::Stacks;
use pfc_state::{Running, State};
use pfc_world::{After, World};
use std::alloc::Global;

/// More than any count of the tables comes to.
const MANY: u64 = 1_000;

/// A program with its machine.
#[derive(Drop)]
pub(super) struct Scene {
    pub image: Image,
    pub machine: Machine,
}

/// A block by its entry, the address of its body, and its cells.
fn block_of(alloc: Global, entry: u32, body: u32, cells: u32) -> Result<Block, Memory> {
    Ok(Block {
        label: Name::new(alloc, b"p")?,
        entry,
        body,
        params: 0,
        cells,
        operands: 16,
        level: 0,
        line: 1,
    })
}

fn process_of(alloc: Global, block: u32) -> Result<ProcessInfo, Memory> {
    let label = Text::new(alloc, b"p")?;
    Ok(ProcessInfo { block, label })
}

/// The blocks: of the children, a plain procedure, two guarded ones, one whose cells just have place over those of a child, one with a cell more,
/// and main.
fn blocks_of(alloc: Global) -> Result<Vec<Block>, Memory> {
    Ok(vec![in alloc;
        block_of(alloc, 0, 0, 0)?,
        block_of(alloc, 10, 10, 2)?,
        block_of(alloc, 20, 22, 1)?,
        block_of(alloc, 30, 33, 1)?,
        block_of(alloc, 40, 40, 16_368)?,
        block_of(alloc, 50, 50, 16_369)?,
        block_of(alloc, 60, 60, 0)?,
    ]?)
}

/// Main and four children, two semaphores, a monitor with two conditions, and a resource.
fn image_of(alloc: Global) -> Result<Image, Memory>
    ensures { IfOk result (λ image. CanStart (plain_image image)) }
{
    Ok(Image {
        code: vec![in alloc; Instr::END]?,
        lines: vec![in alloc; 1]?,
        blocks: blocks_of(alloc)?,
        processes: vec![in alloc;
            process_of(alloc, 6)?,
            process_of(alloc, 0)?,
            process_of(alloc, 0)?,
            process_of(alloc, 0)?,
            process_of(alloc, 0)?,
        ]?,
        objects: Vec::new(alloc),
        texts: Vec::new(alloc),
        semaphores: 2,
        channels: 0,
        conditions: vec![in alloc; 0, 0]?,
        monitors: 1,
        scans: vec![in alloc; 70]?,
        arms: 0,
    })
}

/// One more operand over so many.
fn push_over(stacks: &mut Stacks, p: u32, n: u32)
    requires process { p < length stacks.old }
    requires held { length (operands_of stacks.old p) ≡ n }
    requires room { n < (stack_of stacks.old p).room }
    ensures process { p < length stacks.new }
    ensures held { length (operands_of stacks.new p) ≡ n + 1 }
    ensures room { (stack_of stacks.new p).room ≡ (stack_of stacks.old p).room }
{
    stacks.push(p, 9);
}

/// Twelve operands, none of which is 0.
fn fill(stacks: &mut Stacks, p: u32)
    requires process { p < length stacks.old }
    requires held { operands_of stacks.old p ≡ [] }
    requires room { 12 ≤ (stack_of stacks.old p).room }
{
    for n in 0..12 {
        push_over(stacks, p, n);
    }
}

/// A child has its stack.
fn begin_child(stacks: &mut Stacks, image: &Image, p: u32) -> bool {
    if p >= stacks.processes() || stacks.at(0) > 100 || image.blocks.len() == 0 {
        return false;
    }
    let block = &image.blocks[0];
    if block.params != 0 || block.operands < 12 {
        return false;
    }
    match stacks.create(image, p, 0, 0) {
        Ok(()) => {
            fill(stacks, p);
            true
        }
        Err(_) => false,
    }
}

/// A child is created.
fn create_child(scene: &mut Scene, p: u32) -> bool
    requires { scene.old.machine.world.acting ≡ None }
    ensures { scene.new.machine.world.acting ≡ None }
{
    if !begin_child(&mut scene.machine.stacks, &scene.image, p) {
        return false;
    }
    if p >= scene.machine.world.processes() || p as usize >= scene.machine.descriptors.len() {
        return false;
    }
    scene.machine.descriptors.begin(p);
    scene.machine.world.create(p).is_ok()
}

/// The next action is that of process p, where it is ready.
fn next_turn(world: &mut World, p: u32) -> Option<Running>
    requires { world.old.acting ≡ None }
    ensures acts { MatchOption result (world.new.acting ≡ None) (λ r. world.new.acting ≡ Some r.number) }
    ensures fresh { MatchOption result (world.new.acting ≡ None) (λ r. IsNew world.new.rows world.new.done) }
    ensures number { MatchOption result (world.new.acting ≡ None) (λ r. r.number ≡ p) }
{
    if p >= world.processes() || world.done() >= MANY || world.now() >= MANY {
        return None;
    }
    world.tick();
    match world.state(p) {
        State::Ready => Some(world.begin(p)),
        _ => None,
    }
}

/// The same, where the process has a stack and a next address.
pub(super) fn next_action(machine: &mut Machine, p: u32) -> Option<Running>
    requires { machine.old.world.acting ≡ None }
    ensures acts { MatchOption result (machine.new.world.acting ≡ None) (λ r. Acts r.number machine.new) }
    ensures fresh { MatchOption result (machine.new.world.acting ≡ None) (λ r. IsNew machine.new.world.rows machine.new.world.done) }
{
    if p >= machine.stacks.processes() || p as usize >= machine.descriptors.len() {
        return None;
    }
    if machine.stacks.at(p) > 100 {
        return None;
    }
    next_turn(&mut machine.world, p)
}

/// Main is at `coend`.
fn join_main(world: &mut World) -> bool
    requires { world.old.acting ≡ None }
    ensures { world.new.acting ≡ None }
{
    let Some(main) = next_turn(world, 0) else {
        return false;
    };
    match world.coend(main) {
        After::Goes(r) => {
            world.rest(r);
            false
        }
        After::Waits => true,
    }
}

/// Main waits at `coend`, and the processes 1 to 4 are ready, with twelve operands each.
pub(super) fn four_children(alloc: Global) -> Result<Scene, Memory>
    ensures { IfOk result (λ s. s.machine.world.acting ≡ None) }
{
    let image = image_of(alloc)?;
    let machine = Machine::start(alloc, &image, b"", 7)?;
    let mut scene = Scene { image, machine };
    let _ = create_child(&mut scene, 1);
    let _ = create_child(&mut scene, 2);
    let _ = create_child(&mut scene, 3);
    let _ = create_child(&mut scene, 4);
    let _ = join_main(&mut scene.machine.world);
    Ok(scene)
}
