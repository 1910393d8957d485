//! Actions that touch no object: input, draws, time, and the ends of processes.
ghost use Rattle.std.specs.Prelude.{◌≡◌};
ghost use Rattle.pfc_code.specs.Images.{plain_image};
ghost use Rattle.pfc_machines.specs.Actions.{IsTaken};
ghost use Rattle.pfc_machine_acts.specs.Conditions.{IsActing, CanLive};
ghost use Rattle.pfc_machine_acts.specs.Performing.{lives_by, may_want_memory, WantsMemoryIf};

use crate::activating::activate;
use pfc_code::{Image, Instr};
use pfc_machines::{ActionFault, Machine};
use pfc_own_actions::{ask_clock, ask_end, ask_line_end, draw, finish, join, read, skip, sleep};
use pfc_values::Simple;
use pfc_world::Running;

/// Such an action, or one that begins or ends an activation, or meets objects or other processes.
pub(crate) fn live(
    machine: &mut Machine,
    image: &Image,
    r: Running,
    i: Instr,
    choice: u32,
) -> Result<(), ActionFault>
    requires acting { IsActing r.number machine.old }
    requires can { CanLive (plain_image image.now) i choice r.number machine.old }
    ensures taken { IsTaken (lives_by (plain_image image.now) i choice r.number machine.old) machine.old result machine.new }
    ensures memory { WantsMemoryIf (may_want_memory i) result }
{
    match i {
        Instr::COEND => Ok(join(machine, r)),
        Instr::END => Ok(finish(machine, r)),
        Instr::SLEEP => Ok(sleep(machine, r)?),
        Instr::CLOCK => Ok(ask_clock(machine, r)?),
        Instr::RAND => Ok(draw(machine, r)?),
        Instr::RDI => Ok(read(machine, r, Simple::Integer)?),
        Instr::RDC => Ok(read(machine, r, Simple::Char)?),
        Instr::RDNL => Ok(skip(machine, r)?),
        Instr::EOF => Ok(ask_end(machine, r)),
        Instr::EOLN => Ok(ask_line_end(machine, r)),
        _ => activate(machine, image, r, i, choice),
    }
}
