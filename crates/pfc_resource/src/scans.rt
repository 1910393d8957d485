//! Guards: who is barred, and whose guard is tried next.
ghost use Rattle.std.specs.Prelude.{◌≡◌, ◌<◌, length, is_some, true, None, Some, MatchOption};
ghost use Rattle.pfc_world.specs.Holders.{held_in, holder_in};
ghost use Rattle.pfc_world.specs.Partners.{next_barred, next_entrant};
ghost use Rattle.pfc_world.specs.Resources.{barred, passed_to, requeued};
ghost use Rattle.pfc_world.specs.Tables.{at};
ghost use Rattle.pfc_world.specs.Tickets.{IsNew};
ghost use Rattle.pfc_resource.specs.Scans.{IsBarredAt, barred_in, scanned};

use crate::Resources;
use crate::resources::give_up;
use pfc_world::{Running, State, Why, World};

/// A process that is barred at a resource: its number, the number of the procedure whose guard was false, and the ticket
/// of its wait.
#[derive(Clone, Copy, Debug, PartialEq, Eq)]
pub struct Barred {
    pub process: u32,
    pub procedure: u32,
    pub ticket: u64,
}

/// The guard of the holder's procedure is false: the process that acts gives the resource up, to the first entrant or
/// to nobody, and waits at the procedure. The next holder is the answer; None exactly where no entrant waits.
pub fn bar(
    world: &mut World,
    res: &mut Resources,
    r: Running,
    g: u32,
    procedure: u32,
) -> Option<u32>
    requires acts { world.old.acting ≡ Some r.number }
    requires fresh { IsNew world.old.rows world.old.done }
    requires known { g < length res.old }
    requires holds { holder_in res.old g ≡ Some r.number }
    ensures table { held_in world.new res.new ≡ barred (held_in world.old res.old) r.number g procedure }
    ensures next { result ≡ next_entrant world.old.rows g }
    ensures acting { world.new.acting ≡ None }
{
    let next = give_up(world, res, g);
    world.block(
        r,
        Why::Barred {
            resource: g,
            procedure,
        },
    );
    next
}

/// One turn of a scan: the barred process of the resource with the least ticket above `after`, any ticket being above
/// None. None exactly where there is none. Where the ticket is that of the process that was found last at the resource,
/// it takes the same steps however many are barred.
pub fn scan_next(world: &World, g: u32, after: Option<u64>) -> Option<Barred>
    ensures barred { result ≡ scanned world.now.rows g after }
    ensures found { MatchOption result (next_barred world.now.rows g after ≡ None) (λ b. next_barred world.now.rows g after ≡ Some b.process) }
{
    match world.next_barred(g, after) {
        Some(p) => barred_at(world, p),
        None => None,
    }
}

fn barred_at(world: &World, p: u32) -> Option<Barred>
    requires { p < length world.now.rows }
    ensures { result ≡ barred_in p (at world.now.rows p) }
{
    match (world.state(p), world.ticket(p)) {
        (State::Waiting(Why::Barred { procedure, .. }), Some(ticket)) => Some(Barred {
            process: p,
            procedure,
            ticket,
        }),
        _ => None,
    }
}

/// The guard of a barred process is true: that process has the resource and is ready at its body. Whoever tried the
/// guard goes on.
pub fn pass_to(world: &mut World, res: &mut Resources, g: u32, p: u32)
    requires known { g < length res.old }
    requires held { is_some (holder_in res.old g) ≡ true }
    requires barred { IsBarredAt g (at world.old.rows p) }
    ensures table { held_in world.new res.new ≡ passed_to (held_in world.old res.old) g p }
    ensures acting { world.new.acting ≡ world.old.acting }
{
    world.wake(p);
    res.hold(g, Some(p));
}

/// The guard of the barred process `to` is true, and the process that acts tried it behind a `requeue`: `to` has the
/// resource and is ready at its body, and the process that acts waits, barred, at its new procedure.
pub fn requeue(world: &mut World, res: &mut Resources, r: Running, g: u32, procedure: u32, to: u32)
    requires acts { world.old.acting ≡ Some r.number }
    requires fresh { IsNew world.old.rows world.old.done }
    requires known { g < length res.old }
    requires holds { holder_in res.old g ≡ Some r.number }
    requires barred { IsBarredAt g (at world.old.rows to) }
    ensures table { held_in world.new res.new ≡ requeued (held_in world.old res.old) r.number g procedure to }
    ensures acting { world.new.acting ≡ None }
{
    world.wake(to);
    world.block(
        r,
        Why::Barred {
            resource: g,
            procedure,
        },
    );
    res.hold(g, Some(to));
}
