//! Five processes that take turns, while main waits at `coend`.
ghost use Rattle.std.specs.Prelude.{◌≡◌, ◌≤◌, None, Some, MatchOption, IfOk};
ghost use Rattle.pfc_world.specs.Tickets.{IsNew};

use pfc_base::Memory;
use pfc_world::{After, Arm, Running, State, World};
use std::alloc::Global;

/// More actions, or a later moment, than any of the tables comes to.
const MANY: u64 = 10_000;

/// Main waits at `coend`, the processes 1 to 5 are ready, and process 6 is idle; each may offer two alternatives.
pub(crate) fn five_children(alloc: Global) -> Result<World, Memory>
    ensures { IfOk result (λ w. w.acting ≡ None) }
{
    let mut world = World::with_processes(alloc, 7, 2, 8)?;
    let _ = world.create(1);
    let _ = world.create(2);
    let _ = world.create(3);
    let _ = world.create(4);
    let _ = world.create(5);
    let main = world.begin(0);
    match world.coend(main) {
        After::Goes(r) => world.rest(r),
        After::Waits => {}
    }
    Ok(world)
}

/// The next action is that of process p, where it is ready.
pub(crate) fn next_action(world: &mut World, p: u32) -> Option<Running>
    requires { world.old.acting ≡ None }
    ensures acts { MatchOption result (world.new.acting ≡ None) (λ r. world.new.acting ≡ Some r.number) }
    ensures fresh { MatchOption result (world.new.acting ≡ None) (λ r. IsNew world.new.rows world.new.done) }
{
    if p >= world.processes() || world.done() >= MANY || world.now() >= MANY {
        return None;
    }
    world.tick();
    match world.state(p) {
        State::Ready => Some(world.begin(p)),
        _ => None,
    }
}

/// The process that acts waits in a select with two alternatives, where it has room for them.
pub(crate) fn wait_with(world: &mut World, r: Running, arms: [Arm; 2], due: Option<u64>) -> bool
    requires acts { world.old.acting ≡ Some r.number }
    requires fresh { IsNew world.old.rows world.old.done }
    ensures { world.new.acting ≡ None }
{
    if world.room() < 2 {
        world.rest(r);
        return false;
    }
    world.block_select(r, &arms, due, false);
    true
}
