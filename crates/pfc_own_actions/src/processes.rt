//! The wait at `coend`, and the end of a process.
ghost use Rattle.std.specs.Prelude.{◌≡◌, Ok, Some};
ghost use Rattle.pfc_world.specs.Tickets.{IsNew};
ghost use Rattle.pfc_machines.specs.Actions.{Acts};
ghost use Rattle.pfc_own_actions.specs.Doing.{joined, joins, finishes};

use pfc_machines::{Machine, leave};
use pfc_world::{After, Running, World};

/// Where some process is created, all created ones are ready and the process that acts waits; else it has acted.
fn join_in(world: &mut World, r: Running)
    requires acts { world.old.acting ≡ Some r.number }
    requires fresh { IsNew world.old.rows world.old.done }
    ensures { world.new ≡ joined world.old r.number }
{
    match world.coend(r) {
        After::Goes(r) => world.rest(r),
        After::Waits => {}
    }
}

/// `COEND`: all that are created are ready, and the process waits until all have finished; where none is created, it goes on.
pub fn join(machine: &mut Machine, r: Running)
    requires acts { Acts r.number machine.old }
    requires fresh { IsNew machine.old.world.rows machine.old.world.done }
    ensures { joins r.number machine.old ≡ Ok machine.new }
{
    let p = r.number();
    leave(&mut machine.stacks, p, 0);
    join_in(&mut machine.world, r);
}

/// `END`: the process has finished. The end of the last child makes main ready, where that one waits at `coend`.
pub fn finish(machine: &mut Machine, r: Running)
    requires { Acts r.number machine.old }
    ensures { finishes r.number machine.old ≡ Ok machine.new }
{
    machine.world.finish(r);
}
