//! Actions one after the other.
ghost use Rattle.std.specs.Prelude.{◌≡◌, true, [], OnOk};
ghost use Rattle.pfc_code.specs.Images.{plain_image};
ghost use Rattle.pfc_machines.specs.Machines.{start_machine, CanStart};
ghost use Rattle.pfc_sched.specs.Picks.{by_turn};
ghost use Rattle.pfc_acts_tests.specs.Runs.{may_turn, next_machine, next_picking, may_run};

use pfc_base::{Memory, decimal};
use pfc_code::Image;
use pfc_machine_acts::{ActionEnd, act, settle};
use pfc_machines::Machine;
use pfc_sched::{Picker, Policy};
use pfc_values::Output;
use std::alloc::Global;

/// Puts who acted, the line of the action, and for a fault a `!` behind a text.
fn tell(
    alloc: Global,
    text: &mut Vec<u8>,
    p: u32,
    line: u32,
    end: ActionEnd,
) -> Result<(), Memory> {
    text.extend_from_slice(decimal(alloc, i64::from(p))?.bytes())?;
    text.push(b' ')?;
    text.extend_from_slice(decimal(alloc, i64::from(line))?.bytes())?;
    text.extend_from_slice(if end == ActionEnd::Done { b";" } else { b"!" })?;
    Ok(())
}

/// The machine settles, and a process acts.
fn turn(
    machine: &mut Machine,
    image: &Image,
    p: u32,
    picker: &mut Picker,
    out: &mut Output,
) -> Result<ActionEnd, Memory>
    requires { may_turn (plain_image image.now) picker.old p machine.old ≡ true }
    ensures machine { OnOk result (machine.new ≡ next_machine (plain_image image.now) picker.old p machine.old) }
    ensures picker { OnOk result (picker.new ≡ next_picking (plain_image image.now) picker.old p machine.old) }
{
    settle(machine);
    let r = machine.world.begin(p);
    act(machine, image, r, picker, out)
}

/// These processes act one after the other.
fn run(
    alloc: Global,
    machine: &mut Machine,
    image: &Image,
    picks: &[u32],
    picker: &mut Picker,
    out: &mut Output,
) -> Result<Vec<u8>, Memory>
    requires { may_run (plain_image image.now) picks.now picker.old machine.old ≡ true }
{
    let mut actions = Vec::new(alloc);
    for p in picks {
        let end = turn(machine, image, *p, picker, out)?;
        let line = line_of(machine, *p);
        tell(alloc, &mut actions, *p, line, end)?;
    }
    Ok(actions)
}

/// The line of a process, where it has one.
fn line_of(machine: &Machine, p: u32) -> u32 {
    if p as usize >= machine.descriptors.len() {
        return 0;
    }
    machine.descriptors.line(p)
}

/// The actions of a program from its start on, and what is written; the first of several that match is chosen.
pub(super) fn run_of(
    alloc: Global,
    image: &Image,
    picks: &[u32],
) -> Result<(Vec<u8>, Output), Memory>
    requires can { CanStart (plain_image image.now) }
    requires may { may_run (plain_image image.now) picks.now (by_turn 0) (start_machine (plain_image image.now) [] 1) ≡ true }
{
    let mut machine = Machine::start(alloc, image, b"", 1)?;
    let mut picker = Picker::new(Policy::Unfair);
    let mut out = Output::new(alloc);
    let actions = run(alloc, &mut machine, image, picks, &mut picker, &mut out)?;
    Ok((actions, out))
}
