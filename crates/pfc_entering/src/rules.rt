//! What the rules of resources do for a process that is ready and acts once.
ghost use Rattle.std.specs.Prelude.{◌≡◌, ◌<◌, None, length};
ghost use Rattle.pfc_state.specs.Stands.{Is_ready};
ghost use Rattle.pfc_world.specs.Holders.{held_in};
ghost use Rattle.pfc_world.specs.Resources.{resource_entered};
ghost use Rattle.pfc_world.specs.Tables.{at};
ghost use Rattle.pfc_world.specs.Tickets.{IsNew};
ghost use Rattle.pfc_waiting.specs.Waiting.{HasActed};

use pfc_resource::{Resources, enter};
use pfc_waiting::end_turn;
use pfc_world::World;

/// A call of the resource from outside by the process: it has the resource where that is free, and else waits as an entrant.
pub fn enter_resource_by(world: &mut World, res: &mut Resources, p: u32, r: u32)
    requires alone { world.old.acting ≡ None }
    requires ready { at world.old.rows p ≡ Is_ready }
    requires fresh { IsNew world.old.rows world.old.done }
    requires known { r < length res.old }
    ensures rule { held_in world.new res.new ≡ resource_entered (held_in world.old res.old) p r }
    ensures acted { HasActed world.old world.new }
{
    let running = world.begin(p);
    let after = enter(world, res, running, r);
    end_turn(world, after);
}
