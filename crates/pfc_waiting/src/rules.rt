//! What the rules of objects do for a process that is ready and acts once.
ghost use Rattle.std.specs.Prelude.{◌≡◌, ◌<◌, false, true, None, Some, [], length, slice_index};
ghost use Rattle.pfc_state.specs.Stands.{Is_ready};
ghost use Rattle.pfc_state.specs.Waits.{is_select};
ghost use Rattle.pfc_world.specs.Goings.{ActsAfter};
ghost use Rattle.pfc_world.specs.Holders.{held_in, holder_in};
ghost use Rattle.pfc_world.specs.Monitors.{entered, handed_over, delayed, resumed};
ghost use Rattle.pfc_world.specs.Semaphores.{counted, waited};
ghost use Rattle.pfc_world.specs.Tables.{at};
ghost use Rattle.pfc_world.specs.Tickets.{IsNew};
ghost use Rattle.pfc_world.specs.Transitions.{rested, blocked};
ghost use Rattle.pfc_pass.specs.Counts.{IsSignal};
ghost use Rattle.pfc_waiting.specs.Moments.{at_coend};
ghost use Rattle.pfc_waiting.specs.Waiting.{HasActed};

use pfc_base::RunFault;
use pfc_monitor::{Monitors, delay, enter, leave, resume};
use pfc_pass::{Semaphores, sem_signal, sem_wait};
use pfc_world::{After, Why, World};

/// The process that acts has acted, unless it waits.
pub fn end_turn(world: &mut World, after: After)
    requires { ActsAfter after world.old.acting }
    ensures { world.new ≡ rested world.old }
{
    match after {
        After::Goes(r) => world.rest(r),
        After::Waits => {}
    }
}

/// `wait(s)` by the process.
pub(crate) fn wait_by(world: &mut World, sems: &mut Semaphores, p: u32, s: u32)
    requires alone { world.old.acting ≡ None }
    requires ready { at world.old.rows p ≡ Is_ready }
    requires fresh { IsNew world.old.rows world.old.done }
    requires known { s < length sems.old }
    ensures rule { counted world.new sems.new ≡ waited (counted world.old sems.old) p s }
    ensures acted { HasActed world.old world.new }
{
    let r = world.begin(p);
    let after = sem_wait(world, sems, r, s);
    end_turn(world, after);
}

/// `signal(s)`.
pub(crate) fn signal_by(
    world: &mut World,
    sems: &mut Semaphores,
    s: u32,
) -> Result<Option<u32>, RunFault>
    requires alone { world.old.acting ≡ None }
    requires known { s < length sems.old }
    ensures rule { IsSignal (counted world.old sems.old) s result (counted world.new sems.new) }
    ensures acted { HasActed world.old world.new }
{
    sem_signal(world, sems, s)
}

/// The process waits, in no select.
pub fn block_by(world: &mut World, p: u32, why: Why)
    requires alone { world.old.acting ≡ None }
    requires ready { at world.old.rows p ≡ Is_ready }
    requires fresh { IsNew world.old.rows world.old.done }
    requires plain { is_select why ≡ false }
    ensures rule { world.new ≡ blocked world.old p why [] }
    ensures acted { HasActed world.old world.new }
{
    let r = world.begin(p);
    world.block(r, why);
}

/// The process is at `coend`.
pub(crate) fn join_by(world: &mut World, p: u32)
    requires alone { world.old.acting ≡ None }
    requires ready { at world.old.rows p ≡ Is_ready }
    requires fresh { IsNew world.old.rows world.old.done }
    ensures rule { world.new ≡ at_coend world.old p }
    ensures acted { HasActed world.old world.new }
{
    let r = world.begin(p);
    let after = world.coend(r);
    end_turn(world, after);
}

/// `delay(c, rank)` by the process, which holds the monitor of c.
pub(crate) fn delay_by(world: &mut World, mons: &mut Monitors, p: u32, c: u32, rank: i32)
    requires alone { world.old.acting ≡ None }
    requires ready { at world.old.rows p ≡ Is_ready }
    requires fresh { IsNew world.old.rows world.old.done }
    requires known { c < length mons.old.owners }
    requires holds { holder_in mons.old.holders (slice_index mons.old.owners c) ≡ Some p }
    ensures rule { held_in world.new mons.new.holders ≡ delayed (held_in world.old mons.old.holders) p (slice_index mons.old.owners c) c rank }
    ensures conditions { mons.new.owners ≡ mons.old.owners }
    ensures acted { HasActed world.old world.new }
{
    let r = world.begin(p);
    delay(world, mons, r, c, rank);
}

/// `resume(c)` by the process, which holds the monitor of c.
pub(crate) fn resume_by(world: &mut World, mons: &mut Monitors, p: u32, c: u32)
    requires alone { world.old.acting ≡ None }
    requires ready { at world.old.rows p ≡ Is_ready }
    requires fresh { IsNew world.old.rows world.old.done }
    requires known { c < length mons.old.owners }
    requires holds { holder_in mons.old.holders (slice_index mons.old.owners c) ≡ Some p }
    ensures rule { held_in world.new mons.new.holders ≡ resumed (held_in world.old mons.old.holders) p (slice_index mons.old.owners c) c }
    ensures conditions { mons.new.owners ≡ mons.old.owners }
    ensures acted { HasActed world.old world.new }
{
    let r = world.begin(p);
    let after = resume(world, mons, r, c);
    end_turn(world, after);
}

/// A call of the monitor from outside by the process: it has the monitor where that is free, and else waits as an entrant.
pub fn enter_by(world: &mut World, mons: &mut Monitors, p: u32, m: u32)
    requires alone { world.old.acting ≡ None }
    requires ready { at world.old.rows p ≡ Is_ready }
    requires fresh { IsNew world.old.rows world.old.done }
    requires known { m < length mons.old.holders }
    ensures rule { held_in world.new mons.new.holders ≡ entered (held_in world.old mons.old.holders) p m }
    ensures conditions { mons.new.owners ≡ mons.old.owners }
    ensures acted { HasActed world.old world.new }
{
    let r = world.begin(p);
    let after = enter(world, mons, r, m);
    end_turn(world, after);
}

/// The return of such a call by the process, which holds the monitor: that is handed over.
pub fn leave_by(world: &mut World, mons: &mut Monitors, p: u32, m: u32)
    requires alone { world.old.acting ≡ None }
    requires known { m < length mons.old.holders }
    requires holds { holder_in mons.old.holders m ≡ Some p }
    ensures rule { held_in world.new mons.new.holders ≡ handed_over (held_in world.old mons.old.holders) m }
    ensures conditions { mons.new.owners ≡ mons.old.owners }
    ensures acted { HasActed world.old world.new }
{
    leave(world, mons, p, m);
}

/// Whether the process holds the monitor.
pub(crate) fn holds(mons: &Monitors, m: u32, p: u32) -> bool
    requires { m < length mons.now.holders }
    ensures { result ≡ true → holder_in mons.now.holders m ≡ Some p }
{
    match mons.holder(m) {
        Some(q) => q == p,
        None => false,
    }
}
