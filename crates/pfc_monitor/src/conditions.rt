//! Conditions.
ghost use Rattle.std.specs.Prelude.{◌≡◌, ◌<◌, length, not, is_some, None, Some, slice_index};
ghost use Rattle.pfc_state.specs.declared.waits.Why.{Why};
ghost use Rattle.pfc_world.specs.Goings.{ActsAfter, GoesWhere};
ghost use Rattle.pfc_world.specs.Holders.{held_in, holder_in};
ghost use Rattle.pfc_world.specs.Monitors.{delayed, resumed};
ghost use Rattle.pfc_world.specs.Partners.{condition_waiter, is_empty_condition, next_holder};
ghost use Rattle.pfc_world.specs.Tickets.{IsNew};

use crate::Monitors;
use crate::monitors::hand_over;
use pfc_world::{After, Running, Why, World};

/// `delay(c, rank)` by the process that acts, which holds the monitor of c: it hands the monitor over,
/// and waits on c with this rank. The next holder is the answer; None exactly where neither a resumer nor an entrant waits.
pub fn delay(world: &mut World, mons: &mut Monitors, r: Running, c: u32, rank: i32) -> Option<u32>
    requires acts { world.old.acting ≡ Some r.number }
    requires fresh { IsNew world.old.rows world.old.done }
    requires known { c < length mons.old.owners }
    requires holds { holder_in mons.old.holders (slice_index mons.old.owners c) ≡ Some r.number }
    ensures table { held_in world.new mons.new.holders ≡ delayed (held_in world.old mons.old.holders) r.number (slice_index mons.old.owners c) c rank }
    ensures conditions { mons.new.owners ≡ mons.old.owners }
    ensures next { result ≡ next_holder world.old.rows (slice_index mons.old.owners c) }
    ensures acting { world.new.acting ≡ None }
{
    let m = mons.monitor_of(c);
    let next = hand_over(world, mons, m);
    world.block(r, Why::Condition { number: c, rank });
    next
}

/// `resume(c)` by the process that acts, which holds the monitor of c. Where nobody waits on c it goes on. Else the
/// waiter of least rank, and at that rank of least ticket, has the monitor and is ready, and the process that acts waits
/// as a resumer.
pub fn resume(world: &mut World, mons: &mut Monitors, r: Running, c: u32) -> After
    requires acts { world.old.acting ≡ Some r.number }
    requires fresh { IsNew world.old.rows world.old.done }
    requires known { c < length mons.old.owners }
    requires holds { holder_in mons.old.holders (slice_index mons.old.owners c) ≡ Some r.number }
    ensures table { held_in world.new mons.new.holders ≡ resumed (held_in world.old mons.old.holders) r.number (slice_index mons.old.owners c) c }
    ensures conditions { mons.new.owners ≡ mons.old.owners }
    ensures answer { GoesWhere (not (is_some (condition_waiter world.old.rows c))) r.number result }
    ensures acting { ActsAfter result world.new.acting }
{
    let m = mons.monitor_of(c);
    let Some(q) = world.first_ranked(c) else {
        return After::Goes(r);
    };
    world.wake(q);
    world.block(r, Why::Resumer(m));
    mons.hold(m, Some(q));
    After::Waits
}

/// `empty(c)`: whether nobody waits on the condition, with any rank.
pub fn is_empty(world: &World, c: u32) -> bool
    ensures { result ≡ is_empty_condition world.now.rows c }
{
    world.first_ranked(c).is_none()
}
