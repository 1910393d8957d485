//! Actions on semaphores, conditions and resources.
ghost use Rattle.std.specs.Prelude.{◌≡◌, false};
ghost use Rattle.pfc_code.specs.Images.{plain_image};
ghost use Rattle.pfc_machines.specs.Actions.{IsTaken};
ghost use Rattle.pfc_machine_acts.specs.Conditions.{IsActing, CanHold};
ghost use Rattle.pfc_machine_acts.specs.Performing.{holds_by, WantsMemoryIf};

use crate::communicating::communicate;
use pfc_code::{Image, Instr};
use pfc_machines::{ActionFault, Machine};
use pfc_object_actions::{ask_empty, delay, initialise, resume, signal, wait};
use pfc_resource_actions::{guard, scan};
use pfc_world::Running;

/// Such an action, or one that meets other processes.
pub(crate) fn hold(
    machine: &mut Machine,
    image: &Image,
    r: Running,
    i: Instr,
    choice: u32,
) -> Result<(), ActionFault>
    requires acting { IsActing r.number machine.old }
    requires can { CanHold (plain_image image.now) i choice r.number machine.old }
    ensures taken { IsTaken (holds_by (plain_image image.now) i choice r.number machine.old) machine.old result machine.new }
    ensures memory { WantsMemoryIf false result }
{
    match i {
        Instr::SINI => Ok(initialise(machine, r)?),
        Instr::SWAIT => Ok(wait(machine, r)),
        Instr::SSIG => Ok(signal(machine, r)?),
        Instr::DELAY => Ok(delay(machine, r)),
        Instr::RESUME => Ok(resume(machine, r)),
        Instr::EMPTY => Ok(ask_empty(machine, r)),
        Instr::GRD(g) => Ok(guard(machine, image, r, g)),
        Instr::SCAN(g) => Ok(scan(machine, image, r, g)),
        _ => communicate(machine, r, i, choice),
    }
}
