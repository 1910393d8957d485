//! The quiet instructions of a process, up to its next action.
ghost use Rattle.std.specs.Prelude.{◌≡◌, ◌<◌, ◌^◌, ℕ, Some, length};
ghost use Rattle.std.specs.List.{slice_get};
ghost use Rattle.pfc_code.specs.declared.instructions.Instr.{Instr};
ghost use Rattle.pfc_code.specs.Images.{plain_image};
ghost use Rattle.pfc_stacks.specs.Stacks.{stack_of};
ghost use Rattle.pfc_machines.specs.declared.machine.Machine.{Machine};
ghost use Rattle.pfc_machine_acts.specs.Quietly.{stepper, IsStepped};
ghost use Rattle.pfc_machine_acts.specs.Running.{IsNext, IsStill};

use crate::stepping::{Stepped, step};
use pfc_code::{Image, Instr};
use pfc_machines::Machine;
use pfc_world::Running;

/// The instruction at an address.
pub(crate) fn instr_at(image: &Image, at: u32) -> Instr
    requires { (i : Instr) × (slice_get image.now.code.items at ≡ Some i) }
    ensures { slice_get image.now.code.items at ≡ Some result }
{
    image.code[at as usize]
}

/// Performs the quiet instructions of a process, and the action that comes next where it is of the stacks alone. It answers the address of the
/// action, and what became of it.
pub(crate) fn advance(machine: &mut Machine, image: &Image, r: Running) -> (u32, Stepped)
    requires short { length image.now.code.items < 2 ^ 32 }
    requires stack { r.number < length machine.old.stacks }
    requires next { (n : ℕ) × (m : Machine) × (i : Instr) × IsNext (plain_image image.now) r.number machine.old n m i }
    ensures process { (stepper result.1).number ≡ r.number }
    ensures still { IsStill result.1 }
    ensures reached { (n : ℕ) (m : Machine) (i : Instr) → IsNext (plain_image image.now) r.number machine.old n m i
        → (result.0 ≡ (stack_of m.stacks r.number).at) × IsStepped (plain_image image.now) i r.number m result.1 machine.new }
{
    let p = r.number();
    let mut r = r;
    loop {
        let at = machine.stacks.address(p);
        match step(machine, image, r, instr_at(image, at)) {
            Stepped::Passed(next) => r = next,
            did => return (at, did),
        }
    }
}
