//! Settling: due moments, and the ends of processes that only serve.
ghost use Rattle.std.specs.Prelude.{◌≡◌, None};
ghost use Rattle.pfc_machine_acts.specs.Settling.{machine_settled};

use pfc_machines::Machine;

/// Whoever is due is ready; where nobody is, the clock goes on to the earliest due moment; and where none is pending, the children that wait for
/// nothing but to communicate or to terminate finish. It is no action, and takes no memory.
#[inline(always)]
pub fn settle(machine: &mut Machine)
    requires { machine.old.world.acting ≡ None }
    ensures { machine.new ≡ machine_settled machine.old }
{
    let _left = machine.world.settle();
    if machine.world.may_all_end() {
        machine.world.terminate();
    }
}
