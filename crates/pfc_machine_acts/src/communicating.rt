//! Actions that meet other processes: messages, entries and selects.
ghost use Rattle.std.specs.Prelude.{◌≡◌, false};
ghost use Rattle.pfc_machines.specs.Actions.{IsTaken};
ghost use Rattle.pfc_machine_acts.specs.Conditions.{IsActing, CanCommunicate};
ghost use Rattle.pfc_machine_acts.specs.Performing.{meets_by, WantsMemoryIf};

use pfc_code::Instr;
use pfc_machines::{ActionFault, Machine};
use pfc_meeting_actions::{accept, call_entry, end_accept};
use pfc_message_actions::{receive, send};
use pfc_select_actions::decide;
use pfc_world::Running;

/// Such an action. No other instruction is one that is not of the stacks alone.
pub(crate) fn communicate(
    machine: &mut Machine,
    r: Running,
    i: Instr,
    choice: u32,
) -> Result<(), ActionFault>
    requires acting { IsActing r.number machine.old }
    requires can { CanCommunicate i choice r.number machine.old }
    ensures taken { IsTaken (meets_by i choice r.number machine.old) machine.old result machine.new }
    ensures memory { WantsMemoryIf false result }
{
    match i {
        Instr::SEND(z) => Ok(send(machine, r, z)),
        Instr::RECV(z) => Ok(receive(machine, r, z)),
        Instr::ECALL(e, z) => Ok(call_entry(machine, r, e, z)?),
        Instr::ACC(e, d, z) => Ok(accept(machine, r, e, d, z)),
        Instr::EACC => Ok(end_accept(machine, r)),
        Instr::SEL(mark, x) => Ok(decide(machine, r, mark, x, choice)?),
        _ => Ok(machine.world.rest(r)),
    }
}
