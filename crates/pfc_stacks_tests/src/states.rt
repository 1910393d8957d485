//! Main in a function that a procedure of a monitor called, and a process that is created.
ghost use Rattle.std.specs.Prelude.{◌≡◌, ◌≤◌, ◌<◌, ◌^◌, [], ◌∷◌, Some, ℕ, ℤ, List, Option, length, true, IfOk, IfSome};
ghost use Rattle.std.specs.List.{slice_get};
ghost use Rattle.pfc_code.specs.Images.{plain_image};
ghost use Rattle.pfc_code.specs.declared.instructions.Instr.{Instr};
ghost use Rattle.pfc_stacks.specs.Conditions.{CanPerform};
ghost use Rattle.pfc_stacks.specs.Effects.{effect, acts};
ghost use Rattle.pfc_stacks.specs.Stacks.{stack_of};
ghost use Rattle.pfc_stacks.specs.Starts.{start_stacks};
ghost use Rattle.pfc_stacks_tests.specs.Samples.{sample_blocks, at_start, in_procedure, in_function, before_creation, with_other, sample_stacks};

use pfc_base::Memory;
use pfc_code::{Image, Instr};
use pfc_stacks::{CallFault, Instructed, Mark, Ref, Stacks};
use pfc_state::Running;
use pfc_world::World;
use std::alloc::Global;

/// Main in a procedure of monitor 3, with 7 and 8.
pub(super) fn in_procedure(alloc: Global, image: &Image) -> Result<Stacks, CallFault>
    requires start { start_stacks (plain_image image.now) ≡ at_start }
    requires blocks { image.now.blocks.items ≡ sample_blocks }
    requires few { length image.now.processes.items ≡ 2 }
    ensures { IfOk result (λ stacks. stacks ≡ in_procedure) }
{
    let mut stacks = Stacks::start(alloc, image)?;
    stacks.push(0, 7);
    stacks.push(0, 8);
    stacks.call(image, 0, 1, Mark::Monitor(3))?;
    Ok(stacks)
}

fn rested(world: &mut World, r: Running, is_action: bool) -> bool
    requires { world.old.acting ≡ Some r.number }
    ensures { result ≡ is_action }
{
    world.rest(r);
    is_action
}

/// Performs the next instruction of main, which is this one: whether it was an action.
fn act(alloc: Global, image: &Image, stacks: &mut Stacks, i: Instr) -> Result<bool, Memory>
    requires process { 0 < length stacks.old }
    requires short { length image.now.code.items < 2 ^ 32 }
    requires instr { slice_get image.now.code.items (stack_of stacks.old 0).at ≡ Some i }
    requires condition { CanPerform image.now.blocks.items i 0 stacks.old }
    ensures { IfOk result (λ acted. acted ≡ true → effect image.now.blocks.items i 0 stacks.old ≡ acts stacks.new) }
{
    let mut world = World::with_processes(alloc, 1, 0, 1)?;
    let main = world.begin(0);
    let acted = match stacks.run_instr(image, main) {
        Instructed::Acted(r) => rested(&mut world, r, true),
        Instructed::Quiet(r) => rested(&mut world, r, false),
        Instructed::Fault { r, fault } => {
            let _fault = fault;
            rested(&mut world, r, false)
        }
        Instructed::Outward { r, instr } => {
            let _instr = instr;
            rested(&mut world, r, false)
        }
        Instructed::Memory(r) => rested(&mut world, r, false),
    };
    Ok(acted)
}

/// From there in the function, which the instruction at address 0 calls with a reference to main's third variable; another
/// operand stays.
fn in_function(alloc: Global, image: &Image) -> Result<Option<Stacks>, CallFault>
    requires start { start_stacks (plain_image image.now) ≡ at_start }
    requires blocks { image.now.blocks.items ≡ sample_blocks }
    requires few { length image.now.processes.items ≡ 2 }
    requires short { length image.now.code.items < 2 ^ 32 }
    requires call { slice_get image.now.code.items 0 ≡ Some (Instr.CALL 0 0) }
    ensures { IfOk result (λ made. IfSome made (λ stacks. stacks ≡ in_function)) }
{
    let mut stacks = in_procedure(alloc, image)?;
    stacks.push(0, 50);
    stacks.push(0, 10);
    stacks.go(0, 0);
    if act(alloc, image, &mut stacks, Instr::CALL(0, 0))? {
        return Ok(Some(stacks));
    }
    Ok(None)
}

/// From there the function has the result 99, and main has the operands for the creation of the other process with 77.
fn before_creation(alloc: Global, image: &Image) -> Result<Option<Stacks>, CallFault>
    requires start { start_stacks (plain_image image.now) ≡ at_start }
    requires blocks { image.now.blocks.items ≡ sample_blocks }
    requires few { length image.now.processes.items ≡ 2 }
    requires short { length image.now.code.items < 2 ^ 32 }
    requires call { slice_get image.now.code.items 0 ≡ Some (Instr.CALL 0 0) }
    ensures { IfOk result (λ made. IfSome made (λ stacks. stacks ≡ before_creation)) }
{
    let Some(mut stacks) = in_function(alloc, image)? else {
        return Ok(None);
    };
    let to = Ref {
        process: 0,
        cell: 32,
    };
    stacks.push(0, 99);
    stacks.copy_out(0, 0, 1, to);
    stacks.cut(0, 1);
    stacks.push(0, 1);
    stacks.push(0, 77);
    Ok(Some(stacks))
}

/// From there main has created the other process.
fn with_other(alloc: Global, image: &Image) -> Result<Option<Stacks>, CallFault>
    requires start { start_stacks (plain_image image.now) ≡ at_start }
    requires blocks { image.now.blocks.items ≡ sample_blocks }
    requires few { length image.now.processes.items ≡ 2 }
    requires short { length image.now.code.items < 2 ^ 32 }
    requires call { slice_get image.now.code.items 0 ≡ Some (Instr.CALL 0 0) }
    ensures { IfOk result (λ made. IfSome made (λ stacks. stacks ≡ with_other)) }
{
    let Some(mut stacks) = before_creation(alloc, image)? else {
        return Ok(None);
    };
    stacks.create(image, 1, 0, 2)?;
    Ok(Some(stacks))
}

/// From there main is at address 1 with two operands more, and counts static links from another process where one is given.
pub(super) fn sample_stacks(
    alloc: Global,
    image: &Image,
    look: Option<u32>,
    a: i64,
    b: i64,
) -> Result<Option<Stacks>, CallFault>
    requires start { start_stacks (plain_image image.now) ≡ at_start }
    requires blocks { image.now.blocks.items ≡ sample_blocks }
    requires few { length image.now.processes.items ≡ 2 }
    requires short { length image.now.code.items < 2 ^ 32 }
    requires call { slice_get image.now.code.items 0 ≡ Some (Instr.CALL 0 0) }
    requires other { IfSome look (λ q. q < 2) }
    ensures { IfOk result (λ made. IfSome made (λ stacks. stacks ≡ sample_stacks look a b)) }
{
    let Some(mut stacks) = with_other(alloc, image)? else {
        return Ok(None);
    };
    stacks.push(0, a);
    stacks.push(0, b);
    stacks.go(0, 1);
    stacks.look_from(0, look);
    Ok(Some(stacks))
}
