//! How a process's turn ends.
ghost use Rattle.std.specs.Prelude.{◌≡◌};
ghost use Rattle.pfc_world.specs.Goings.{ActsAfter};
ghost use Rattle.pfc_world.specs.Transitions.{rested};

use pfc_world::{After, World};

/// The process that acts has acted, unless it waits.
pub fn end_turn(world: &mut World, after: After)
    requires { ActsAfter after world.old.acting }
    ensures { world.new ≡ rested world.old }
{
    match after {
        After::Goes(r) => world.rest(r),
        After::Waits => {}
    }
}
