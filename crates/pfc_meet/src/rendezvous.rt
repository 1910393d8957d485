//! Calls of entries, and their meetings with `accept`.
ghost use Rattle.std.specs.Prelude.{◌≡◌, ◌<◌, length, Some};
ghost use Rattle.pfc_state.specs.Stands.{IsWaiting};
ghost use Rattle.pfc_world.specs.Partners.{caller};
ghost use Rattle.pfc_world.specs.Rendezvous.{accepted, meeting_ended, taken};
ghost use Rattle.pfc_world.specs.Tables.{at};
ghost use Rattle.pfc_world.specs.Tickets.{IsNew};
ghost use Rattle.pfc_meet.specs.Meetings.{ActsAfterAccept, ActsAfterCall, IsAccepted, IsCall, IsInMeeting};

use crate::partners::acceptance;
use pfc_world::{Running, State, Why, World};

/// What became of a process that calls an entry.
#[derive(Clone, Copy, Debug, PartialEq, Eq)]
pub enum Called {
    /// The meeting begins. The owner of the entry is ready: at its accept's statement, or, where it waited in a select,
    /// at that of the alternative of this place, from 0, which is its first for this entry. The caller waits in the
    /// rendezvous.
    Met { alternative: Option<u32> },
    /// It waits until its call is accepted.
    Waits,
}

/// The fault of a call whose entry's owner is idle or has finished. The process that called still acts.
pub struct Uncalled {
    pub r: Running,
}

/// What became of a process that accepts an entry.
pub enum Accepted {
    /// It goes on at the accept's statement, and this caller waits in the rendezvous.
    Met { r: Running, caller: u32 },
    /// It waits, because nobody calls that entry.
    Waits,
}

/// `owner.e(..)` by the process that acts. It is the fault of a process that is not active, and nothing changes, exactly
/// where the owner is idle or has finished. The meeting begins exactly where the owner waits to accept the entry, in a
/// plain statement or in a select; else the process that acts waits for the entry.
pub fn call_entry(world: &mut World, r: Running, owner: u32, entry: u32) -> Result<Called, Uncalled>
    requires acts { world.old.acting ≡ Some r.number }
    requires fresh { IsNew world.old.rows world.old.done }
    requires known { owner < length world.old.rows }
    ensures table { IsCall world.old r.number owner entry result world.new }
    ensures acting { ActsAfterCall result world.new.acting }
{
    if let State::Idle | State::Done = world.state(owner) {
        return Err(Uncalled { r });
    }
    match acceptance(world, owner, entry) {
        Some(met) => {
            world.wake(owner);
            world.block(r, Why::Meeting(owner));
            Ok(Called::Met {
                alternative: met.alternative,
            })
        }
        None => {
            world.block(r, Why::Call { owner, entry });
            Ok(Called::Waits)
        }
    }
}

/// `accept e` by the process that acts: the meeting begins with the process that has waited longest for this entry of
/// it. It waits exactly where nobody calls the entry.
pub fn accept(world: &mut World, r: Running, entry: u32) -> Accepted
    requires acts { world.old.acting ≡ Some r.number }
    requires fresh { IsNew world.old.rows world.old.done }
    ensures table { world.new ≡ accepted world.old r.number entry }
    ensures answer { IsAccepted (caller world.old.rows r.number entry) r.number result }
    ensures acting { ActsAfterAccept result world.new.acting }
{
    let owner = r.number();
    match world.first_at(Why::Call { owner, entry }) {
        Some(caller) => Accepted::Met {
            r: take(world, r, caller),
            caller,
        },
        None => {
            world.block(r, Why::Accept(entry));
            Accepted::Waits
        }
    }
}

/// The end of an accept's statement: the caller, who waits in the rendezvous, is ready.
pub fn end_accept(world: &mut World, caller: u32)
    requires { IsInMeeting (at world.old.rows caller) }
    ensures { world.new ≡ meeting_ended world.old caller }
{
    world.wake(caller);
}

/// The meeting of the process that acts begins with a caller that waits: the caller waits anew, in the rendezvous, since
/// this action, and the process that acts goes on.
pub(crate) fn take(world: &mut World, r: Running, caller: u32) -> Running
    requires acts { world.old.acting ≡ Some r.number }
    requires fresh { IsNew world.old.rows world.old.done }
    requires waits { IsWaiting (at world.old.rows caller) }
    ensures number { result.number ≡ r.number }
    ensures table { world.new ≡ taken world.old r.number caller }
    ensures acting { world.new.acting ≡ Some result.number }
{
    // this also tells that the process that acts stands as ready
    let _processes = world.processes();
    let owner = r.number();
    world.rest(r);
    world.wake(caller);
    let called = world.begin(caller);
    world.block(called, Why::Meeting(owner));
    world.begin(owner)
}
