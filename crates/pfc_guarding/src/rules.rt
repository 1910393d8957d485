//! What the rules of resources do for a process that is ready and acts once.
ghost use Rattle.std.specs.Prelude.{◌≡◌, ◌<◌, true, None, Some, length};
ghost use Rattle.pfc_state.specs.Stands.{Is_ready};
ghost use Rattle.pfc_world.specs.Holders.{held_in, holder_in};
ghost use Rattle.pfc_world.specs.Resources.{given_up, barred, passed_to, requeued};
ghost use Rattle.pfc_world.specs.Tables.{at};
ghost use Rattle.pfc_world.specs.Tickets.{IsNew};
ghost use Rattle.pfc_resource.specs.Scans.{IsBarredAt};
ghost use Rattle.pfc_waiting.specs.Waiting.{HasActed};

use pfc_resource::{Resources, bar, leave, pass_to, requeue};
use pfc_world::{State, Why, World};

/// Whether there is such a resource, and the process holds it.
pub(crate) fn is_held_by(res: &Resources, r: u32, p: u32) -> bool
    ensures known { result ≡ true → r < length res.now }
    ensures holds { result ≡ true → holder_in res.now r ≡ Some p }
{
    if !res.has(r) {
        return false;
    }
    match res.holder(r) {
        Some(q) => q == p,
        None => false,
    }
}

/// Whether there is such a process, and it is barred at the resource.
pub(crate) fn is_barred_at(world: &World, r: u32, q: u32) -> bool
    ensures { result ≡ true → IsBarredAt r (at world.now.rows q) }
{
    if world.processes() <= q {
        return false;
    }
    match world.state(q) {
        State::Waiting(Why::Barred { resource, .. }) => resource == r,
        _ => false,
    }
}

/// All guards were tried behind a return: the resource goes to the first entrant, or is free.
pub(crate) fn give_up_by(world: &mut World, res: &mut Resources, p: u32, r: u32)
    requires alone { world.old.acting ≡ None }
    requires known { r < length res.old }
    requires holds { holder_in res.old r ≡ Some p }
    ensures rule { held_in world.new res.new ≡ given_up (held_in world.old res.old) r }
    ensures acted { HasActed world.old world.new }
{
    leave(world, res, r);
}

/// The guard of the process's procedure is false: it waits there, and the resource goes to the first entrant, or is free.
pub(crate) fn bar_by(world: &mut World, res: &mut Resources, p: u32, r: u32, procedure: u32)
    requires alone { world.old.acting ≡ None }
    requires ready { at world.old.rows p ≡ Is_ready }
    requires fresh { IsNew world.old.rows world.old.done }
    requires known { r < length res.old }
    requires holds { holder_in res.old r ≡ Some p }
    ensures rule { held_in world.new res.new ≡ barred (held_in world.old res.old) p r procedure }
    ensures acted { HasActed world.old world.new }
{
    let running = world.begin(p);
    bar(world, res, running, r, procedure);
}

/// The guard of a barred process is true: that one has the resource, and is ready.
pub(crate) fn pass_by(world: &mut World, res: &mut Resources, p: u32, r: u32, to: u32)
    requires alone { world.old.acting ≡ None }
    requires known { r < length res.old }
    requires holds { holder_in res.old r ≡ Some p }
    requires barred { IsBarredAt r (at world.old.rows to) }
    ensures rule { held_in world.new res.new ≡ passed_to (held_in world.old res.old) r to }
    ensures acted { HasActed world.old world.new }
{
    pass_to(world, res, r, to);
}

/// The same behind a requeue: the process that tried the guard waits at the procedure to which it has requeued.
pub(crate) fn requeue_by(
    world: &mut World,
    res: &mut Resources,
    p: u32,
    r: u32,
    procedure: u32,
    to: u32,
)
    requires alone { world.old.acting ≡ None }
    requires ready { at world.old.rows p ≡ Is_ready }
    requires fresh { IsNew world.old.rows world.old.done }
    requires known { r < length res.old }
    requires holds { holder_in res.old r ≡ Some p }
    requires barred { IsBarredAt r (at world.old.rows to) }
    ensures rule { held_in world.new res.new ≡ requeued (held_in world.old res.old) p r procedure to }
    ensures acted { HasActed world.old world.new }
{
    let running = world.begin(p);
    requeue(world, res, running, r, procedure, to);
}
