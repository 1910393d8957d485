//! Returns.
ghost use Rattle.std.specs.Prelude.{◌≡◌, ◌<◌, Ok, length};
ghost use Rattle.pfc_stacks.specs.Activations.{mark_in};
ghost use Rattle.pfc_stacks.specs.Stacks.{stack_of, operands_of};
ghost use Rattle.pfc_machines.specs.Actions.{Acts};
ghost use Rattle.pfc_call_actions.specs.Returns.{returns, returns_result, HoldsMarked};

use crate::scans::{begin_scan, scan_at};
use pfc_code::Image;
use pfc_machines::Machine;
use pfc_stacks::Mark;
use pfc_world::Running;

/// `RET`: the last activation ends, and its caller goes on. One that entered a monitor hands it over, and one that entered a resource begins its
/// scan, and keeps it meanwhile.
pub fn end_call(machine: &mut Machine, image: &Image, r: Running)
    requires acts { Acts r.number machine.old }
    requires holds { HoldsMarked (mark_in (stack_of machine.old.stacks r.number)) r.number machine.old }
    ensures { returns image.now.scans.items r.number machine.old ≡ Ok machine.new }
{
    let p = r.number();
    let mark = machine.stacks.mark(p);
    machine.stacks.end_call(p);
    machine.descriptors.leave(p);
    match mark {
        Mark::Plain => {}
        Mark::Monitor(m) => {
            pfc_monitor::leave(&mut machine.world, &mut machine.monitors, p, m);
        }
        Mark::Resource(g) => begin_scan(machine, p, scan_at(&image.scans, g), false),
    }
    machine.world.rest(r);
}

/// `RETF`: the last activation, which is a function's, ends, and its caller goes on with the result.
pub fn end_function(machine: &mut Machine, image: &Image, r: Running)
    requires acts { Acts r.number machine.old }
    requires room { length (operands_of machine.old.stacks r.number) < (stack_of machine.old.stacks r.number).room }
    ensures { returns_result image.now.blocks.items r.number machine.old ≡ Ok machine.new }
{
    let p = r.number();
    machine.world.rest(r);
    machine.stacks.end_function(image, p);
    machine.descriptors.leave(p);
}
