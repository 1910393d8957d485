//! What the rules of rendezvous do to the table, for a process that is ready and acts once.
ghost use Rattle.std.specs.Prelude.{◌≡◌, ◌<◌, false, true, None, length};
ghost use Rattle.pfc_state.specs.Stands.{Is_ready, IsWaiting};
ghost use Rattle.pfc_world.specs.Partners.{is_accepting as is_accepting_in};
ghost use Rattle.pfc_world.specs.Rendezvous.{accepted, called, is_uncalled as is_uncalled_in};
ghost use Rattle.pfc_world.specs.Tables.{at};
ghost use Rattle.pfc_world.specs.Tickets.{IsNew};
ghost use Rattle.pfc_waiting.specs.Waiting.{HasActed};

use pfc_meet::{Accepted, Uncalled, accept, call_entry};
use pfc_world::{Arm, State, Why, World};

/// `accept e` by the process: it takes the first caller of the entry, and else waits.
pub(crate) fn accept_by(world: &mut World, p: u32, entry: u32)
    requires alone { world.old.acting ≡ None }
    requires ready { at world.old.rows p ≡ Is_ready }
    requires fresh { IsNew world.old.rows world.old.done }
    ensures rule { world.new ≡ accepted world.old p entry }
    ensures acted { HasActed world.old world.new }
{
    let r = world.begin(p);
    match accept(world, r, entry) {
        Accepted::Met { r, caller: _ } => world.rest(r),
        Accepted::Waits => {}
    }
}

/// A call of an entry of the owner, which is neither idle nor finished, by the process.
pub(crate) fn call_by(world: &mut World, p: u32, owner: u32, entry: u32)
    requires alone { world.old.acting ≡ None }
    requires ready { at world.old.rows p ≡ Is_ready }
    requires fresh { IsNew world.old.rows world.old.done }
    requires known { owner < length world.old.rows }
    requires active { is_uncalled_in world.old owner ≡ false }
    ensures rule { world.new ≡ called world.old p owner entry }
    ensures acted { HasActed world.old world.new }
{
    let r = world.begin(p);
    match call_entry(world, r, owner, entry) {
        Ok(_) => {}
        Err(Uncalled { r }) => world.rest(r),
    }
}

/// Whether a call of an entry of the owner is a fault.
pub(crate) fn is_uncalled(world: &World, owner: u32) -> bool
    requires { owner < length world.now.rows }
    ensures { result ≡ is_uncalled_in world.now owner }
{
    match world.state(owner) {
        State::Idle => true,
        State::Done => true,
        State::Created => false,
        State::Ready => false,
        State::Waiting(_) => false,
    }
}

/// Whether the owner waits to accept the entry, in a plain statement or in a select.
pub(crate) fn is_accepting(world: &World, owner: u32, entry: u32) -> bool
    requires { owner < length world.now.rows }
    ensures answer { result ≡ is_accepting_in world.now.rows owner entry }
    ensures waits { result ≡ true → IsWaiting (at world.now.rows owner) }
{
    match world.state(owner) {
        State::Waiting(Why::Accept(accepts)) => accepts == entry,
        State::Waiting(
            Why::Select {
                due: _,
                terminate: _,
            },
        ) => world.offer_at(owner, Arm::Accept(entry)).is_some(),
        _ => false,
    }
}
