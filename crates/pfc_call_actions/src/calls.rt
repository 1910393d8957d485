//! Calls.
ghost use Rattle.std.specs.Prelude.{◌≡◌, ◌<◌, Some, length};
ghost use Rattle.std.specs.List.{slice_get};
ghost use Rattle.pfc_code.specs.declared.images.Block.{Block};
ghost use Rattle.pfc_world.specs.Tickets.{IsNew};
ghost use Rattle.pfc_machines.specs.Actions.{Acts};
ghost use Rattle.pfc_call_actions.specs.Calls.{calls, calls_monitor, calls_resource, CanCall, IsGranted};

use crate::beginning::{Entry, begin, fault_of};
use pfc_code::Image;
use pfc_machines::{ActionFault, Machine};
use pfc_object_actions::end_turn;
use pfc_stacks::Mark;
use pfc_world::Running;

/// `CALL`: calls a block, by its number in the image, whose static link is l links up, with the arguments on top. The fault is that the stack
/// would be full. All memory is taken before anything is changed.
pub fn call(
    machine: &mut Machine,
    image: &Image,
    r: Running,
    k: u32,
    l: u32,
) -> Result<(), ActionFault>
    requires acts { Acts r.number machine.old }
    requires can { CanCall image.now.blocks.items k r.number machine.old }
    ensures { (b : Block) → slice_get image.now.blocks.items k ≡ Some b → IsGranted (calls k b l r.number machine.old) machine.old result machine.new }
{
    let p = r.number();
    machine.world.rest(r);
    match begin(machine, image, p, k, Entry::Inside(l)) {
        Ok(()) => Ok(()),
        Err(fault) => Err(fault_of(fault)),
    }
}

/// `MCALL`: calls a block, by its number in the image, from outside of its monitor, with the arguments on top: the monitor is the caller's where
/// it is free, and else the process waits, in its new activation. The fault is that the stack would be full. All memory is taken before anything
/// is changed.
pub fn call_monitor(
    machine: &mut Machine,
    image: &Image,
    r: Running,
    m: u32,
    k: u32,
) -> Result<(), ActionFault>
    requires acts { Acts r.number machine.old }
    requires fresh { IsNew machine.old.world.rows machine.old.world.done }
    requires known { m < length machine.old.monitors.holders }
    requires can { CanCall image.now.blocks.items k r.number machine.old }
    ensures { (b : Block) → slice_get image.now.blocks.items k ≡ Some b
        → IsGranted (calls_monitor m k b r.number machine.old) machine.old result machine.new }
{
    let p = r.number();
    match begin(machine, image, p, k, Entry::Outside(Mark::Monitor(m))) {
        Ok(()) => {
            let after = pfc_monitor::enter(&mut machine.world, &mut machine.monitors, r, m);
            end_turn(&mut machine.world, after);
            Ok(())
        }
        Err(fault) => {
            machine.world.rest(r);
            Err(fault_of(fault))
        }
    }
}

/// `RCALL`: the same from outside of a resource. Who has the resource goes on at the guard, where the procedure has one.
pub fn call_resource(
    machine: &mut Machine,
    image: &Image,
    r: Running,
    g: u32,
    k: u32,
) -> Result<(), ActionFault>
    requires acts { Acts r.number machine.old }
    requires fresh { IsNew machine.old.world.rows machine.old.world.done }
    requires known { g < length machine.old.resources }
    requires can { CanCall image.now.blocks.items k r.number machine.old }
    ensures { (b : Block) → slice_get image.now.blocks.items k ≡ Some b
        → IsGranted (calls_resource g k b r.number machine.old) machine.old result machine.new }
{
    let p = r.number();
    match begin(machine, image, p, k, Entry::Outside(Mark::Resource(g))) {
        Ok(()) => {
            let after = pfc_resource::enter(&mut machine.world, &mut machine.resources, r, g);
            end_turn(&mut machine.world, after);
            Ok(())
        }
        Err(fault) => {
            machine.world.rest(r);
            Err(fault_of(fault))
        }
    }
}
