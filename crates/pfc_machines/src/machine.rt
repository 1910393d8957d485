//! All that there is between two instructions.
ghost use Rattle.std.specs.Prelude.{◌≡◌, ◌<◌, ◌^◌, length, IfOk};
ghost use Rattle.pfc_code.specs.Images.{plain_image};
ghost use Rattle.pfc_machines.specs.Machines.{main_block, start_objects, start_machine, CanStart};

use crate::{Descriptors, Rooms};
use pfc_base::Memory;
use pfc_code::{Image, Instr, ProcessInfo};
use pfc_monitor::Monitors;
use pfc_pass::Semaphores;
use pfc_resource::Resources;
use pfc_sched::Draws;
use pfc_stacks::Stacks;
use pfc_values::Input;
use pfc_world::World;
use std::alloc::Global;

/// All that there is between two instructions: the stacks of all processes, by their numbers from 0, main being 0; their standings, the
/// number of actions done and the clock; the count of each semaphore, and who holds each monitor and each resource; what processes have to
/// do with one another; the room that an activation of each block takes for that; the input that is left, the words of `random`, and whether
/// the output ends inside a line.
#[derive(Drop)]
pub struct Machine {
    pub stacks: Stacks,
    pub world: World,
    pub semaphores: Semaphores,
    pub monitors: Monitors,
    pub resources: Resources,
    pub descriptors: Descriptors,
    pub rooms: Rooms,
    pub input: Input,
    pub draws: Draws,
    pub in_line: bool,
}

/// One more than the number of the entry that an instruction accepts, or 0.
fn entry_in(i: Instr) -> u32 {
    match i {
        Instr::ACC(e, _, _) => e.saturating_add(1),
        Instr::ARMA(e, _, _, _) => e.saturating_add(1),
        _ => 0,
    }
}

/// How many entries a process has, at most.
fn most_entries(code: &[Instr]) -> u32 {
    let mut most = 0;
    for i in code {
        most = entry_in(*i).max(most);
    }
    most
}

/// How many objects of one kind there are, at most, and entries of all processes. What waits for what is found without a walk where the table
/// has a list for each; nothing else rests on it.
fn most_objects(image: &Image, processes: u32) -> u32
    requires conditions { length image.now.conditions.items < 2 ^ 32 }
    requires resources { length image.now.scans.items < 2 ^ 32 }
{
    let entries = most_entries(&image.code).saturating_mul(processes);
    let guarded = (image.scans.len() as u32).max(image.monitors);
    let passed = image.semaphores.max(image.channels);
    entries
        .max(guarded)
        .max(passed)
        .max(image.conditions.len() as u32)
}

/// The number of main's block; 0 where the image has no main.
fn main_block(processes: &[ProcessInfo]) -> u32
    ensures { result ≡ main_block processes.now }
{
    match processes.first() {
        Some(main) => main.block,
        None => 0,
    }
}

/// What processes wait for and hold.
#[derive(Drop)]
struct Objects {
    world: World,
    semaphores: Semaphores,
    monitors: Monitors,
    resources: Resources,
}

impl Objects {
    /// Main is ready, the others are idle, and nobody holds anything.
    fn start(alloc: Global, image: &Image) -> Result<Objects, Memory>
        requires { CanStart (plain_image image.now) }
        ensures { IfOk result (λ objects. objects ≡ start_objects (plain_image image.now)) }
    {
        let processes = image.processes.len() as u32;
        let world = World::with_processes(
            alloc,
            processes,
            image.arms,
            most_objects(image, processes),
        )?;
        let semaphores = Semaphores::new(alloc, image.semaphores)?;
        let monitors = Monitors::new(alloc, image.monitors, &image.conditions)?;
        let resources = Resources::new(alloc, image.scans.len() as u32)?;
        Ok(Objects {
            world,
            semaphores,
            monitors,
            resources,
        })
    }
}

impl Machine {
    /// The machine before the first action of an image, over an input and a seed of `random`: main has entered its block, and the others have
    /// begun nothing. Its only refusal is want of memory.
    pub fn start(alloc: Global, image: &Image, input: &[u8], seed: u64) -> Result<Machine, Memory>
        requires { CanStart (plain_image image.now) }
        ensures { IfOk result (λ m. m ≡ start_machine (plain_image image.now) input.now seed) }
    {
        let rooms = Rooms::of(alloc, image.processes.len(), &image.code, &image.blocks)?;
        let room = rooms.of_block(main_block(&image.processes));
        let descriptors = Descriptors::start(alloc, &image.processes, &image.blocks, room)?;
        let objects = Objects::start(alloc, image)?;
        let stacks = Stacks::start(alloc, image)?;
        let input = Input::new(alloc, input)?;
        Ok(Machine {
            stacks,
            world: objects.world,
            semaphores: objects.semaphores,
            monitors: objects.monitors,
            resources: objects.resources,
            descriptors,
            rooms,
            input,
            draws: Draws::new(seed),
            in_line: false,
        })
    }
}
