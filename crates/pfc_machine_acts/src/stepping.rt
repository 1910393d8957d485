//! One instruction of a process, which may be quiet.
ghost use Rattle.std.specs.Prelude.{◌≡◌, ◌<◌, ◌+◌, ◌^◌, length};
ghost use Rattle.pfc_code.specs.Images.{plain_image};
ghost use Rattle.pfc_stacks.specs.Effects.{effect_inside, outward};
ghost use Rattle.pfc_stacks.specs.Stacks.{stack_of};
ghost use Rattle.pfc_machines.specs.Quiet.{quiet_effect, CanGo};
ghost use Rattle.pfc_machine_acts.specs.Quietly.{stepper, CanStep, IsOutward, IsTried};

use pfc_base::RunFault;
use pfc_code::{Image, Instr};
use pfc_machines::{Machine, Quiet};
use pfc_stacks::Performed;
use pfc_world::Running;

/// What became of an instruction. The process that was to perform it is given back.
pub(crate) enum Stepped {
    /// it was performed, and is no action
    Passed(Running),
    /// it was performed, as an action of the stacks alone
    Acted(Running),
    /// it ends in a fault, which is an action, and is left undone
    Faulted { r: Running, fault: RunFault },
    /// it is another action, and is left undone
    Stands(Running),
}

/// One that is not of the stacks alone, or a call or a return, which are left undone.
fn try_outward(machine: &mut Machine, image: &Image, r: Running, i: Instr) -> Stepped
    requires can { CanStep (plain_image image.now) i r.number machine.old }
    requires left { effect_inside i r.number machine.old.stacks ≡ outward }
    ensures process { (stepper result).number ≡ r.number }
    ensures outward { IsOutward (quiet_effect image.now.scans.items i r.number machine.old) machine.old result machine.new }
{
    match i {
        Instr::CALL(_, _) => Stepped::Stands(r),
        Instr::RET => Stepped::Stands(r),
        Instr::RETF => Stepped::Stands(r),
        _ => try_quiet(machine, image, r, i),
    }
}

/// One of these that is neither a call nor a return.
fn try_quiet(machine: &mut Machine, image: &Image, r: Running, i: Instr) -> Stepped
    requires { CanGo i r.number machine.old }
    ensures process { (stepper result).number ≡ r.number }
    ensures outward { IsOutward (quiet_effect image.now.scans.items i r.number machine.old) machine.old result machine.new }
{
    match machine.run_quiet(&image.scans, r.number(), i) {
        Quiet::Passed => Stepped::Passed(r),
        Quiet::Faulted(fault) => Stepped::Faulted { r, fault },
        Quiet::Acts => Stepped::Stands(r),
    }
}

/// An instruction of a process, at its address: it is performed where it is quiet, or an action of the stacks alone.
pub(crate) fn step(machine: &mut Machine, image: &Image, r: Running, i: Instr) -> Stepped
    requires stack { r.number < length machine.old.stacks }
    requires next { (stack_of machine.old.stacks r.number).at + 1 < 2 ^ 32 }
    requires can { CanStep (plain_image image.now) i r.number machine.old }
    ensures process { (stepper result).number ≡ r.number }
    ensures tried { IsTried (effect_inside i r.number machine.old.stacks)
        (quiet_effect image.now.scans.items i r.number machine.old) machine.old result machine.new }
{
    match machine.stacks.perform_inside(r.number(), i) {
        Performed::Passed => Stepped::Passed(r),
        Performed::Action => Stepped::Acted(r),
        Performed::Faulted(fault) => Stepped::Faulted { r, fault },
        Performed::Nothing => try_outward(machine, image, r, i),
    }
}
