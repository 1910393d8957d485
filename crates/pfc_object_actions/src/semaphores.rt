//! Semaphores.
ghost use Rattle.std.specs.Prelude.{◌≡◌, ◌<◌, true, Ok, length};
ghost use Rattle.pfc_stacks.specs.Stacks.{operand, operands_of};
ghost use Rattle.pfc_values.specs.declared.simple.Simple.{Simple};
ghost use Rattle.pfc_values.specs.Numbers.{is_of};
ghost use Rattle.pfc_world.specs.Tickets.{IsNew};
ghost use Rattle.pfc_machines.specs.Actions.{Acts, IsActed};
ghost use Rattle.pfc_object_actions.specs.Objects.{object_at};
ghost use Rattle.pfc_object_actions.specs.Semaphores.{initials, waits, signals};

use crate::operands::{object_at, top_integer};
use crate::turns::end_turn;
use pfc_base::RunFault;
use pfc_machines::{Machine, leave};
use pfc_pass::{sem_initial, sem_signal, sem_wait};
use pfc_world::Running;

/// `SINI`: sets the count of the semaphore below the top to the integer on top. The fault is that of a negative semaphore.
pub fn initialise(machine: &mut Machine, r: Running) -> Result<(), RunFault>
    requires acts { Acts r.number machine.old }
    requires integer { is_of Simple.Integer (operand (operands_of machine.old.stacks r.number) 0) ≡ true }
    requires known { object_at 1 r.number machine.old < length machine.old.semaphores }
    ensures { IsActed (initials r.number machine.old) machine.old result machine.new }
{
    let p = r.number();
    machine.world.rest(r);
    let s = object_at(machine, p, 1);
    let n = top_integer(machine, p);
    sem_initial(&mut machine.semaphores, s, n)?;
    leave(&mut machine.stacks, p, 2);
    Ok(())
}

/// `SWAIT`: a positive count of the semaphore on top falls by 1; at 0 the process waits.
pub fn wait(machine: &mut Machine, r: Running)
    requires acts { Acts r.number machine.old }
    requires fresh { IsNew machine.old.world.rows machine.old.world.done }
    requires known { object_at 0 r.number machine.old < length machine.old.semaphores }
    ensures { waits r.number machine.old ≡ Ok machine.new }
{
    let p = r.number();
    let s = object_at(machine, p, 0);
    leave(&mut machine.stacks, p, 1);
    let after = sem_wait(&mut machine.world, &mut machine.semaphores, r, s);
    end_turn(&mut machine.world, after);
}

/// `SSIG`: makes ready the process that has waited longest on the semaphore on top; without one its count rises by 1. The fault is that of a
/// count too large: nobody waits, and it is 2147483647.
pub fn signal(machine: &mut Machine, r: Running) -> Result<(), RunFault>
    requires acts { Acts r.number machine.old }
    requires known { object_at 0 r.number machine.old < length machine.old.semaphores }
    ensures { IsActed (signals r.number machine.old) machine.old result machine.new }
{
    let p = r.number();
    let s = object_at(machine, p, 0);
    match sem_signal(&mut machine.world, &mut machine.semaphores, s) {
        Ok(_freed) => {
            machine.world.rest(r);
            leave(&mut machine.stacks, p, 1);
            Ok(())
        }
        Err(fault) => {
            machine.world.rest(r);
            Err(fault)
        }
    }
}
