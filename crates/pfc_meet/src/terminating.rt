//! The end of processes that only serve.
ghost use Rattle.std.specs.Prelude.{◌≡◌, None};
ghost use Rattle.pfc_world.specs.Settling.{may_all_end};
ghost use Rattle.pfc_world.specs.Terminating.{finally_settled};

use pfc_world::World;

/// The third step of settling. Where nobody is ready, no due moment is pending, and every unfinished child waits in a
/// select with an open `terminate`, at least one existing, these children finish, and main is ready where it waits at
/// `coend`. The answer is false, and nothing changes, exactly where this does not apply.
pub fn terminate_all(world: &mut World) -> bool
    requires { world.old.acting ≡ None }
    ensures table { world.new ≡ finally_settled world.old }
    ensures answer { result ≡ may_all_end world.old.rows }
{
    if !world.may_all_end() {
        return false;
    }
    world.terminate();
    true
}
