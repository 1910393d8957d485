//! Settling, between two actions.
ghost use Rattle.std.specs.Prelude.{◌≡◌, None};
ghost use Rattle.pfc_select_actions.specs.Selects.{settles};

use pfc_machines::Machine;
use pfc_meet::terminate_all;

/// Whoever is due is ready; where nobody is ready then, the clock goes on to the earliest due moment; and where none is pending, the children
/// that wait for nothing but to communicate or to terminate finish. No stack changes: a process that its moment woke stands at the branch of
/// its `timeout` already.
#[tactic(none)]
pub fn settle(machine: &mut Machine)
    requires { machine.old.world.acting ≡ None }
    ensures { machine.new ≡ settles machine.old }
{
    let _left = machine.world.settle();
    let _ended = terminate_all(&mut machine.world);
}
