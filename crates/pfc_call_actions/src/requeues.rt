//! Requeues.
ghost use Rattle.std.specs.Prelude.{◌≡◌, ◌≤◌, ◌<◌, Some, get_or, length};
ghost use Rattle.std.specs.List.{slice_get};
ghost use Rattle.pfc_code.specs.declared.images.Block.{Block};
ghost use Rattle.pfc_stacks.specs.Activations.{has_place, params_of};
ghost use Rattle.pfc_stacks.specs.Answers.{IsCalled};
ghost use Rattle.pfc_stacks.specs.Stacks.{stack_of, operands_of};
ghost use Rattle.pfc_machines.specs.Actions.{Acts};
ghost use Rattle.pfc_call_actions.specs.Calls.{IsGranted};
ghost use Rattle.pfc_call_actions.specs.Requeues.{in_place, requeues};

use crate::beginning::fault_of;
use crate::scans::{begin_scan, scan_at};
use pfc_code::Image;
use pfc_machines::{ActionFault, Machine};
use pfc_stacks::CallFault;
use pfc_world::Running;

/// An activation of a block, by its number in the image, takes the place of the last one of a process, with room for what it has to do with
/// others. All memory is taken before anything is changed.
fn replace(machine: &mut Machine, image: &Image, p: u32, k: u32) -> Result<(), CallFault>
    requires stack { p < length machine.old.stacks }
    requires descriptor { p < length machine.old.descriptors }
    requires block { k < length image.now.blocks.items }
    requires arguments { params_of (slice_get image.now.blocks.items k) ≤ length (operands_of machine.old.stacks p) }
    ensures replaced { (b : Block) → slice_get image.now.blocks.items k ≡ Some b
        → IsCalled (has_place p (stack_of machine.old.stacks p).base b) machine.old (in_place k b p machine.old) result machine.new }
    ensures descriptors { length machine.new.descriptors ≡ length machine.old.descriptors }
{
    if !machine.stacks.may_replace(p, &image.blocks[k as usize]) {
        return Err(CallFault::Stack);
    }
    let held = machine.descriptors.room(p);
    machine.descriptors.make_room(p, machine.rooms.of_block(k))?;
    match machine.stacks.replace(image, p, k) {
        Ok(()) => Ok(()),
        Err(fault) => {
            machine.descriptors.set_room(p, held);
            Err(fault)
        }
    }
}

/// `REQ`: an activation of a block of resource g, by its number in the image, takes the place of the last one, with the arguments on top, and the
/// process scans; behind the scan it is at the guard of that block. The fault is that the stack would be full, the old activation not counted.
/// All memory is taken before anything is changed.
pub fn requeue(
    machine: &mut Machine,
    image: &Image,
    r: Running,
    g: u32,
    k: u32,
) -> Result<(), ActionFault>
    requires acts { Acts r.number machine.old }
    requires block { k < length image.now.blocks.items }
    requires arguments { params_of (slice_get image.now.blocks.items k) ≤ length (operands_of machine.old.stacks r.number) }
    ensures { (b : Block) → slice_get image.now.blocks.items k ≡ Some b
        → IsGranted (requeues (get_or image.now.scans.items g 0) k b r.number machine.old) machine.old result machine.new }
{
    let p = r.number();
    machine.world.rest(r);
    match replace(machine, image, p, k) {
        Ok(()) => {
            begin_scan(machine, p, scan_at(&image.scans, g), true);
            Ok(())
        }
        Err(fault) => Err(fault_of(fault)),
    }
}
