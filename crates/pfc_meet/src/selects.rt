//! Selects.
ghost use Rattle.std.specs.Prelude.{◌≡◌, ◌<◌, ◌≤◌, length, Some, []};
ghost use Rattle.pfc_state.specs.Stands.{IsWaiting};
ghost use Rattle.pfc_world.specs.Selects.{committed, communicated_with, matched, select_waited};
ghost use Rattle.pfc_world.specs.Tables.{at};
ghost use Rattle.pfc_world.specs.Tickets.{IsNew};
ghost use Rattle.pfc_meet.specs.Choices.{IsCommitted, IsMatch};

use crate::partners::partner;
use crate::rendezvous::take;
use pfc_world::{Arm, Partner, Running, World};

/// What the choice of a matched alternative came to: the process that acts goes on, at the alternative of this place,
/// from 0; the partner's number; and, where the partner waited in a select, the place of the first of its alternatives
/// that was met.
pub struct Committed {
    pub r: Running,
    pub alternative: u32,
    pub partner: u32,
    pub partner_alternative: Option<u32>,
}

/// A matched alternative: its place, itself, and whom it meets.
#[derive(Clone, Copy)]
pub(crate) struct Match {
    pub(crate) place: u32,
    pub(crate) alternative: Arm,
    pub(crate) partner: Partner,
}

/// How many of the alternatives of process p are matched, because a partner waits.
pub fn matches(world: &World, p: u32, arms: &[Arm]) -> u32
    requires { length arms.now < 4294967296 }
    ensures { result ≡ length (matched world.now.rows p arms.now) }
{
    let mut count = 0;
    for arm in arms {
        if partner(world, p, *arm).is_some() {
            count += 1;
        }
    }
    count
}

/// The matched alternative at place k, from 0, among those that are matched is taken, and its communication happens in
/// this action: the partner of a message is ready, and the caller of an accepted entry waits in the rendezvous. The
/// process that acts goes on.
pub fn select_commit(world: &mut World, r: Running, arms: &[Arm], k: u32) -> Committed
    requires acts { world.old.acting ≡ Some r.number }
    requires fresh { IsNew world.old.rows world.old.done }
    requires few { length arms.now < 4294967296 }
    requires matched { k < length (matched world.old.rows r.number arms.now) }
    ensures table { world.new ≡ committed world.old r.number arms.now k }
    ensures answer { IsCommitted world.old.rows r.number arms.now k result }
    ensures acting { world.new.acting ≡ Some result.r.number }
{
    let chosen = match_at(world, r.number(), arms, k);
    Committed {
        r: communicate(world, r, chosen),
        alternative: chosen.place,
        partner: chosen.partner.process,
        partner_alternative: chosen.partner.alternative,
    }
}

/// The matched alternative at place k.
fn match_at(world: &World, p: u32, arms: &[Arm], k: u32) -> Match
    requires few { length arms.now < 4294967296 }
    requires matched { k < length (matched world.now.rows p arms.now) }
    ensures chosen { IsMatch world.now.rows p arms.now k result }
    ensures waits { IsWaiting (at world.now.rows result.partner.process) }
{
    let mut left = k;
    for (place, arm) in arms.iter().enumerate() {
        if let Some(met) = partner(world, p, *arm) {
            if left == 0 {
                return Match {
                    place: place as u32,
                    alternative: *arm,
                    partner: met,
                };
            }
            left -= 1;
        }
    }
    unreachable!()
}

/// The communication of the process that acts with the partner of a matched alternative.
fn communicate(world: &mut World, r: Running, chosen: Match) -> Running
    requires acts { world.old.acting ≡ Some r.number }
    requires fresh { IsNew world.old.rows world.old.done }
    requires waits { IsWaiting (at world.old.rows chosen.partner.process) }
    ensures number { result.number ≡ r.number }
    ensures table { world.new ≡ communicated_with (Some chosen.partner.process) world.old r.number chosen.alternative }
    ensures acting { world.new.acting ≡ Some result.number }
{
    match chosen.alternative {
        Arm::Accept(_) => take(world, r, chosen.partner.process),
        Arm::Send(_) | Arm::Receive(_) => {
            world.wake(chosen.partner.process);
            r
        }
    }
}

/// The process that acts waits with its open alternatives, none of which is matched, since this action: until a partner
/// comes, until the due moment where there is one, and until all its kin may end where it may `terminate`.
pub fn select_wait(world: &mut World, r: Running, arms: &[Arm], due: Option<u64>, terminate: bool)
    requires acts { world.old.acting ≡ Some r.number }
    requires fresh { IsNew world.old.rows world.old.done }
    requires room { length arms.now ≤ world.old.room }
    requires unmatched { matched world.old.rows r.number arms.now ≡ [] }
    ensures { world.new ≡ select_waited world.old r.number arms.now due terminate }
{
    world.block_select(r, arms, due, terminate);
}
