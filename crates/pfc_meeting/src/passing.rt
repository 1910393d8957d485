//! Both go on: the process that acts, and its partner.
ghost use Rattle.std.specs.Prelude.{◌≡◌, ◌≢◌, ℕ, ◌<◌, length, OnOk};
ghost use Rattle.pfc_state.specs.Stands.{IsWaiting};
ghost use Rattle.pfc_world.specs.Tables.{at};
ghost use Rattle.pfc_store.specs.Views.{store_view, value_view};
ghost use Rattle.pfc_activities.specs.Relation.{MayAct};
ghost use Rattle.pfc_meeting.specs.Meeting.{BothGoOn, HasRoomAt, IsPassed, IsRoomier, stored_into};

use crate::{Onward, go_onward, make_room};
use pfc_activities::{Done, State};
use pfc_base::Memory;
use pfc_pending::At;
use pfc_store::{Location, Store, Value};

/// Takes room for two parts more at a process. Its only refusal is want of memory, and that there is no such process, which never comes in
/// a run.
pub fn room_at<'t>(state: &mut State<'t>, q: u32) -> Result<(), Memory>
    ensures same { IsRoomier state.old state.new q }
    ensures within { OnOk result (q < length state.new.activities.items) }
    ensures room { OnOk result (HasRoomAt state.new.activities.items q) }
    ensures others { (x : ℕ) → x ≢ q → HasRoomAt state.old.activities.items x → HasRoomAt state.new.activities.items x }
{
    if q as usize >= state.activities.len() {
        return Err(Memory);
    }
    make_room(&mut state.activities[q as usize])
}

/// A value is put there, where there is a place for it.
fn put_into(store: &mut Store, into: Option<Location>, value: Value)
    ensures { store_view store.new ≡ stored_into (store_view store.old) into (value_view value) }
{
    if let Some(location) = into {
        store.put(&location, value);
    }
}

/// The process goes on behind its action, and its partner behind the alternative at which it was met, in room that was taken before.
pub fn go_on_with<'t>(state: &mut State<'t>, p: u32, q: u32, way: Onward<'t>) -> Done
    requires may { MayAct state.old p }
    requires within { q < length state.old.activities.items }
    requires other { q ≢ p }
    requires room { HasRoomAt state.old.activities.items q }
    ensures { BothGoOn state.old state.new p q way.entry result }
{
    let line = state.line_of(p);
    go_onward(&mut state.activities[q as usize], way);
    state.set_at_work(p, At::Rest);
    state.end_action(p, line);
    Done::Stepped
}

/// A message passes: it is put into its place, the partner is ready, and both go on.
pub fn pass<'t>(
    state: &mut State<'t>,
    p: u32,
    q: u32,
    into: Option<Location>,
    value: Value,
    way: Onward<'t>,
) -> Done
    requires may { MayAct state.old p }
    requires within { q < length state.old.activities.items }
    requires waits { IsWaiting (at state.old.world.rows q) }
    requires room { HasRoomAt state.old.activities.items q }
    ensures { IsPassed state.old state.new p q into value way.entry result }
{
    put_into(&mut state.store, into, value);
    state.world.wake(q);
    go_on_with(state, p, q, way)
}
