//! One action of a process, counted.
ghost use Rattle.std.specs.Prelude.{◌≡◌, ◌*◌, ◌<◌, ◌^◌, ℕ, Some, get_or, length, set};
ghost use Rattle.pfc_code.specs.declared.instructions.Instr.{Instr as InstrValue};
ghost use Rattle.pfc_code.specs.Images.{plain_image};
ghost use Rattle.pfc_machines.specs.Actions.{at_rest};
ghost use Rattle.pfc_machines.specs.Descriptors.{descriptor_of};
ghost use Rattle.pfc_machines.specs.declared.machine.Machine.{Machine as MachineValue};
ghost use Rattle.pfc_select_actions.specs.Selects.{takes_up};
ghost use Rattle.pfc_machine_acts.specs.Acting.{choice_among, after_choosing, acted, MayAct, IsAnswer, IsActed};
ghost use Rattle.pfc_machine_acts.specs.Conditions.{CanSelect, CanDo};
ghost use Rattle.pfc_machine_acts.specs.Performing.{performs, choices_for};
ghost use Rattle.pfc_machine_acts.specs.Running.{IsNext};

use crate::advancing::{advance, instr_at};
use crate::performing::perform;
use crate::stepping::Stepped;
use pfc_base::{Memory, RunFault};
use pfc_code::{Image, Instr};
use pfc_machines::{ActionFault, Descriptors, Machine};
use pfc_sched::Picker;
use pfc_select_actions::{choices, take_up};
use pfc_values::Output;
use pfc_world::Running;

/// What an action was.
#[derive(Clone, Copy, Debug, PartialEq, Eq)]
pub enum ActionEnd {
    /// an action without a fault
    Done,
    /// a fault, at a line from 1
    Faulted { line: u32, fault: RunFault },
}

/// The line of an instruction, from 1; 0 where the image has none.
fn line_at(image: &Image, at: u32) -> u32
    ensures { result ≡ get_or image.now.lines.items at 0 }
{
    image.lines.get(at as usize).copied().unwrap_or(0)
}

/// A process has a line, where there is one of that number.
fn note(descriptors: &mut Descriptors, p: u32, line: u32)
    ensures { descriptors.new ≡ set descriptors.old p (record (descriptor_of descriptors.old p) { line = line }) }
{
    if (p as usize) < descriptors.len() {
        descriptors.set_line(p, line);
    }
}

/// An action of a process was done at a line.
fn count(machine: &mut Machine, p: u32, line: u32)
    requires done { machine.old.world.done < 10 ^ 18 }
    requires moment { machine.old.world.moment < 2 * 10 ^ 18 }
    ensures { machine.new ≡ acted line p machine.old }
{
    note(&mut machine.descriptors, p, line);
    machine.world.tick();
}

/// An action that is over, also by a fault.
fn end(machine: &mut Machine, r: Running, line: u32)
    requires acts { machine.old.world.acting ≡ Some r.number }
    requires done { machine.old.world.done < 10 ^ 18 }
    requires moment { machine.old.world.moment < 2 * 10 ^ 18 }
    ensures { machine.new ≡ acted line r.number (at_rest machine.old) }
{
    let p = r.number();
    machine.world.rest(r);
    count(machine, p, line);
}

/// How many alternatives an instruction chooses among.
fn choices_for(machine: &Machine, p: u32, i: Instr) -> u32
    requires { (choice : ℕ) × CanSelect i choice p machine.now }
    ensures { result ≡ choices_for i p machine.now }
{
    match i {
        Instr::SEL(mark, _) => choices(machine, p, mark),
        _ => 0,
    }
}

/// The place that is taken among so many alternatives: the one that the picker chooses next. Nothing is drawn yet.
fn place_among(picker: &Picker, n: u32) -> u32
    ensures { result ≡ choice_among picker.now n }
{
    if n == 0 { 0 } else { picker.next_choice(n) }
}

/// The picker has chosen among so many alternatives, where there are some.
fn choose_among(picker: &mut Picker, n: u32)
    ensures { picker.new ≡ after_choosing picker.old n }
{
    if n > 0 {
        picker.choose(n);
    }
}

/// Performs and counts an action that is not of the stacks alone.
fn carry_out(
    machine: &mut Machine,
    image: &Image,
    r: Running,
    i: Instr,
    line: u32,
    picker: &mut Picker,
    out: &mut Output,
) -> Result<ActionEnd, Memory>
    requires { CanDo (plain_image image.now) i (choice_among picker.old (choices_for i r.number machine.old)) r.number machine.old }
    ensures { let n = choices_for i r.number machine.old in
        IsAnswer (performs (plain_image image.now) i (choice_among picker.old n) r.number machine.old) i line r.number n machine.old
        picker.old picker.new out.old out.new result machine.new }
{
    let p = r.number();
    let n = choices_for(machine, p, i);
    let choice = place_among(picker, n);
    match perform(machine, image, r, i, choice, out) {
        Ok(()) => {
            choose_among(picker, n);
            count(machine, p, line);
            Ok(ActionEnd::Done)
        }
        Err(ActionFault::Fault(fault)) => {
            count(machine, p, line);
            Ok(ActionEnd::Faulted { line, fault })
        }
        Err(ActionFault::Memory) => Err(Memory),
    }
}

/// One action of a process: its quiet instructions, and the action that comes next, which is counted. What it prints is put behind `out`, and a
/// plain select that has something to choose among asks the picker. Its only refusal is want of memory, which comes only of a call, a requeue, a
/// creation or output, and leaves the process before that action, and the output and the picker as they were.
pub fn act(
    machine: &mut Machine,
    image: &Image,
    r: Running,
    picker: &mut Picker,
    out: &mut Output,
) -> Result<ActionEnd, Memory>
    requires { MayAct (plain_image image.now) picker.old r.number machine.old }
    ensures { (n : ℕ) (m : MachineValue) (i : InstrValue) → IsNext (plain_image image.now) r.number (takes_up r.number machine.old) n m i
        → IsActed (plain_image image.now) r.number m i picker.old picker.new out.old out.new result machine.new }
{
    take_up(machine, r.number());
    let (at, did) = advance(machine, image, r);
    let line = line_at(image, at);
    match did {
        // no quiet instruction is left
        Stepped::Passed(r) => {
            end(machine, r, line);
            Ok(ActionEnd::Done)
        }
        Stepped::Acted(r) => {
            end(machine, r, line);
            Ok(ActionEnd::Done)
        }
        Stepped::Faulted { r, fault } => {
            end(machine, r, line);
            Ok(ActionEnd::Faulted { line, fault })
        }
        Stepped::Stands(r) => carry_out(machine, image, r, instr_at(image, at), line, picker, out),
    }
}
