//! Actions by which activations begin and end.
ghost use Rattle.std.specs.Prelude.{◌≡◌};
ghost use Rattle.pfc_code.specs.Images.{plain_image};
ghost use Rattle.pfc_machines.specs.Actions.{IsTaken};
ghost use Rattle.pfc_machine_acts.specs.Conditions.{IsActing, CanActivate};
ghost use Rattle.pfc_machine_acts.specs.Performing.{calls_by, may_want_memory, WantsMemoryIf};

use crate::holding::hold;
use pfc_call_actions::{call, call_monitor, call_resource, end_call, end_function, requeue};
use pfc_code::{Image, Instr};
use pfc_machines::{ActionFault, Machine};
use pfc_own_actions::create;
use pfc_world::Running;

/// Such an action, or one that meets objects or other processes.
pub(crate) fn activate(
    machine: &mut Machine,
    image: &Image,
    r: Running,
    i: Instr,
    choice: u32,
) -> Result<(), ActionFault>
    requires acting { IsActing r.number machine.old }
    requires can { CanActivate (plain_image image.now) i choice r.number machine.old }
    ensures taken { IsTaken (calls_by (plain_image image.now) i choice r.number machine.old) machine.old result machine.new }
    ensures memory { WantsMemoryIf (may_want_memory i) result }
{
    match i {
        Instr::CALL(k, l) => call(machine, image, r, k, l),
        Instr::MCALL(m, k) => call_monitor(machine, image, r, m, k),
        Instr::RCALL(g, k) => call_resource(machine, image, r, g, k),
        Instr::RET => Ok(end_call(machine, image, r)),
        Instr::RETF => Ok(end_function(machine, image, r)),
        Instr::REQ(g, k) => requeue(machine, image, r, g, k),
        Instr::NEW(k) => create(machine, image, r, k),
        _ => hold(machine, image, r, i, choice),
    }
}
