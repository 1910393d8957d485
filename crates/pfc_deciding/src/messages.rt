//! Messages of a select: one passes to, or comes from, a process that waits for it.
ghost use Rattle.std.specs.Prelude.{◌≡◌, IfOk, OnErr};
ghost use Rattle.pfc_state.specs.Stands.{IsWaiting};
ghost use Rattle.pfc_world.specs.Tables.{at};
ghost use Rattle.pfc_activities.specs.Relation.{MayAct, StaysAt};
ghost use Rattle.pfc_activities.specs.declared.source.Source.{Source};
ghost use Rattle.pfc_meeting.specs.Meeting.{HasRoomAt};
ghost use Rattle.pfc_deciding.specs.Coming.{ComesTo, sends_it, receives_it};

use crate::own::{Behind, take_way};
use pfc_activities::{Done, State};
use pfc_base::Memory;
use pfc_meeting::{met_receiver, met_sender, pass, place_of, room_at};
use pfc_store::{Spot, Value};
use std::alloc::Global;

/// The value is sent to a process that waits to receive it, and the process that acts goes its own way. It is refused where memory is, and
/// where that process offers no such thing, which never comes in a run; nothing is to be seen of it then.
pub(crate) fn sends_to<'t>(
    alloc: Global,
    state: &mut State<'t>,
    p: u32,
    q: u32,
    channel: u32,
    value: &Value,
    way: Behind<'t>,
) -> Result<Done, Memory>
    requires may { MayAct state.old p }
    requires room { HasRoomAt state.old.activities.items p }
    requires waits { IsWaiting (at state.old.world.rows q) }
    ensures ok { IfOk result (λ d. (source : Source) → ComesTo source state.old state.new p (sends_it way.entry p q channel value.now) d) }
    ensures err { OnErr result (StaysAt state.old state.new p) }
{
    let Ok(()) = room_at(state, q) else {
        return Err(Memory);
    };
    let partner = &state.activities[q as usize];
    let Ok(met) = met_receiver(alloc, &state.store, partner, channel) else {
        return Err(Memory);
    };
    let Ok(message) = value.copy(alloc) else {
        return Err(Memory);
    };
    take_way(state, p, way);
    Ok(pass(state, p, q, met.into, message, met.way))
}

/// A value is received from a process that waits to send it, and the process that acts goes its own way. It is refused where memory is, and
/// where that process offers no such thing, which never comes in a run; nothing is to be seen of it then.
pub(crate) fn receives_from<'t>(
    alloc: Global,
    state: &mut State<'t>,
    p: u32,
    q: u32,
    channel: u32,
    target: &Option<Spot>,
    way: Behind<'t>,
) -> Result<Done, Memory>
    requires may { MayAct state.old p }
    requires room { HasRoomAt state.old.activities.items p }
    requires waits { IsWaiting (at state.old.world.rows q) }
    ensures ok { IfOk result (λ d. (source : Source) → ComesTo source state.old state.new p (receives_it way.entry p q channel target.now) d) }
    ensures err { OnErr result (StaysAt state.old state.new p) }
{
    let Ok(()) = room_at(state, q) else {
        return Err(Memory);
    };
    let partner = &state.activities[q as usize];
    let Ok(met) = met_sender(alloc, &state.store, partner, channel) else {
        return Err(Memory);
    };
    let display = &state.activities[p as usize].display;
    let Ok(into) = place_of(alloc, &state.store, display, target) else {
        return Err(Memory);
    };
    take_way(state, p, way);
    Ok(pass(state, p, q, into, met.value, met.way))
}
