//! Actions by their instructions.
ghost use Rattle.std.specs.Prelude.{◌≡◌};
ghost use Rattle.pfc_code.specs.Images.{plain_image};
ghost use Rattle.pfc_machines.specs.Actions.{IsPrinted, IsTaken};
ghost use Rattle.pfc_machine_acts.specs.Conditions.{IsActing, CanLive, CanDo};
ghost use Rattle.pfc_machine_acts.specs.Performing.{lives_by, silent, performs, may_want_memory, WantsMemoryIf};

use crate::living::live;
use pfc_code::{Image, Instr};
use pfc_machines::{ActionFault, Machine};
use pfc_own_actions::{write_line_end, write_text, write_value};
use pfc_values::{Output, Simple};
use pfc_world::Running;

/// An action that prints nothing.
fn live_silently(
    machine: &mut Machine,
    image: &Image,
    r: Running,
    i: Instr,
    choice: u32,
    out: &Output,
) -> Result<(), ActionFault>
    requires acting { IsActing r.number machine.old }
    requires can { CanLive (plain_image image.now) i choice r.number machine.old }
    ensures printed { IsPrinted (silent (lives_by (plain_image image.now) i choice r.number machine.old)) machine.old out.now result machine.new out.now }
    ensures memory { WantsMemoryIf (may_want_memory i) result }
{
    live(machine, image, r, i, choice)
}

/// Performs an instruction of a process that is an action and not of the stacks alone. A select takes the alternative at the place of the choice,
/// from 0. What is printed is put behind `out`. The faults are those of the action, and leave the machine as it was, as want of memory does, which
/// comes only of calls, requeues, creations and output.
pub fn perform(
    machine: &mut Machine,
    image: &Image,
    r: Running,
    i: Instr,
    choice: u32,
    out: &mut Output,
) -> Result<(), ActionFault>
    requires { CanDo (plain_image image.now) i choice r.number machine.old }
    ensures printed { IsPrinted (performs (plain_image image.now) i choice r.number machine.old) machine.old out.old result machine.new out.new }
    ensures memory { WantsMemoryIf (may_want_memory i) result }
{
    match i {
        Instr::WRI(w) => write_value(machine, r, Simple::Integer, w, out),
        Instr::WRB(w) => write_value(machine, r, Simple::Boolean, w, out),
        Instr::WRC(w) => write_value(machine, r, Simple::Char, w, out),
        Instr::WRS(s, w) => write_text(machine, r, image.texts[s as usize].bytes(), w, out),
        Instr::WRNL => write_line_end(machine, r, out),
        _ => live_silently(machine, image, r, i, choice, out),
    }
}
