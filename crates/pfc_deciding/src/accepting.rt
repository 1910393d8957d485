//! A caller that a select accepts.
ghost use Rattle.std.specs.Prelude.{◌≡◌, Some, IfOk, OnErr};
ghost use Rattle.pfc_state.specs.Stands.{Is_ready, IsWaiting};
ghost use Rattle.pfc_world.specs.Partners.{caller as first_caller};
ghost use Rattle.pfc_world.specs.Rendezvous.{taken};
ghost use Rattle.pfc_world.specs.Tables.{at};
ghost use Rattle.pfc_world.specs.Tickets.{IsNew};
ghost use Rattle.pfc_waiting.specs.Waiting.{HasActed};
ghost use Rattle.pfc_activities.specs.Relation.{MayAct, StaysAt};
ghost use Rattle.pfc_accepting.specs.Meetings.{HasMeetingRoom};
ghost use Rattle.pfc_deciding.specs.Coming.{ComesTo};
ghost use Rattle.pfc_deciding.specs.Accepting.{accepts_it};

use crate::own::Behind;
use pfc_accepting::{meeting_at, room_for_meeting, take_caller};
use pfc_activities::{Done, Source, State};
use pfc_base::Memory;
use pfc_meet::{Accepted, accept};
use pfc_meeting::Onward;
use pfc_pending::Accepting;
use pfc_world::World;
use std::alloc::Global;

/// The first caller of the entry is taken: it waits in the rendezvous.
fn take_by(world: &mut World, p: u32, entry: u32, caller: u32)
    requires alone { world.old.acting ≡ None }
    requires ready { at world.old.rows p ≡ Is_ready }
    requires fresh { IsNew world.old.rows world.old.done }
    requires first { first_caller world.old.rows p entry ≡ Some caller }
    ensures rule { world.new ≡ taken world.old p caller }
    ensures acted { HasActed world.old world.new }
{
    let r = world.begin(p);
    match accept(world, r, entry) {
        Accepted::Met { r, caller: _ } => world.rest(r),
        Accepted::Waits => {}
    }
}

/// A caller is accepted, and behind the meeting the process goes its own way. It is refused where memory is; nothing is to be seen of it then.
pub(crate) fn accepts_by<'t>(
    alloc: Global,
    source: &Source<'t>,
    state: &mut State<'t>,
    p: u32,
    caller: u32,
    accepting: Accepting<'t>,
    way: Behind<'t>,
) -> Result<Done, Memory>
    requires may { MayAct state.old p }
    requires first { first_caller state.old.world.rows p accepting.entry ≡ Some caller }
    requires waits { IsWaiting (at state.old.world.rows caller) }
    ensures ok { IfOk result (λ d. ComesTo source.now state.old state.new p (accepts_it accepting.entry way.entry caller p) d) }
    ensures err { OnErr result (StaysAt state.old state.new p) }
{
    let Ok(()) = room_for_meeting(state, p) else {
        return Err(Memory);
    };
    accepts_in_room(alloc, source, state, p, caller, accepting, way)
}

/// The same, in room that was taken before. Want of memory changes nothing.
fn accepts_in_room<'t>(
    alloc: Global,
    source: &Source<'t>,
    state: &mut State<'t>,
    p: u32,
    caller: u32,
    accepting: Accepting<'t>,
    way: Behind<'t>,
) -> Result<Done, Memory>
    requires may { MayAct state.old p }
    requires first { first_caller state.old.world.rows p accepting.entry ≡ Some caller }
    requires waits { IsWaiting (at state.old.world.rows caller) }
    requires room { HasMeetingRoom state.old.activities.items p }
    ensures ok { IfOk result (λ d. ComesTo source.now state.old state.new p (accepts_it accepting.entry way.entry caller p) d) }
    ensures err { OnErr result (state.new ≡ state.old) }
{
    if caller as usize >= state.activities.len() {
        return Err(Memory);
    }
    let own = &state.activities[p as usize];
    let onward = Onward {
        kept: own.doing.pending.len(),
        replica: way.replica,
        next: way.next,
        stmts: way.stmts,
    };
    let Ok(meeting) = meeting_at(alloc, source, &own.doing.names, accepting, onward) else {
        return Err(Memory);
    };
    take_by(&mut state.world, p, accepting.entry, caller);
    Ok(take_caller(alloc, state, p, caller, meeting))
}
