//! Both processes where a meeting begins, and a process that waits.
ghost use Rattle.std.specs.Prelude.{◌≡◌, ◌≢◌, ◌<◌, length, OnOk};
ghost use Rattle.pfc_program.specs.declared.tables.Tables.{Tables};
ghost use Rattle.pfc_store.specs.Views.{values_view};
ghost use Rattle.pfc_semantics.specs.Rendezvous.{asked};
ghost use Rattle.pfc_activities.specs.Relation.{StaysAt};
ghost use Rattle.pfc_activities.specs.Shown.{activity_shown};
ghost use Rattle.pfc_activities.specs.Views.{hand_view};
ghost use Rattle.pfc_meeting.specs.Meeting.{IsRoomier};
ghost use Rattle.pfc_waiting.specs.Waiting.{MayEnd};
ghost use Rattle.pfc_accepting.specs.Meetings.{HasMeetingRoom, without_hand};
ghost use Rattle.pfc_accepting.specs.States.{IsBegun};
ghost use Rattle.pfc_accepting.specs.Acting.{IsTaken, IsMet, IsShown};

use crate::Meeting;
use crate::meetings::{begin, make_room};
use pfc_activities::{Activity, Done, Hand, State};
use pfc_base::Memory;
use pfc_pending::At;
use pfc_store::Value;
use std::alloc::Global;
use std::mem;

/// Takes room at a process for what is pending in a meeting. Its only refusal is want of memory, and that there is no such process, which
/// never comes in a run; there is nothing to be seen of it.
pub fn room_for_meeting<'t>(state: &mut State<'t>, q: u32) -> Result<(), Memory>
    ensures other { IsRoomier state.old state.new q }
    ensures own { StaysAt state.old state.new q }
    ensures within { OnOk result (q < length state.new.activities.items) }
    ensures room { OnOk result (HasMeetingRoom state.new.activities.items q) }
{
    if q as usize >= state.activities.len() {
        return Err(Memory);
    }
    make_room(&mut state.activities[q as usize])
}

/// The arguments that a caller showed, none where it showed no such thing. It shows nothing any more.
fn take_asked<'t>(alloc: Global, activity: &mut Activity<'t>) -> Vec<Value>
    ensures args { (t : Tables) → values_view result.items ≡ asked (hand_view t activity.old.doing activity.old.hand) }
    ensures shown { (t : Tables) → activity_shown t activity.new ≡ without_hand t activity.old }
{
    match mem::replace(&mut activity.hand, Hand::Empty) {
        Hand::Asking(args) => args,
        Hand::Empty => Vec::new(alloc),
        Hand::Offering(_) => Vec::new(alloc),
        Hand::Barred(_) => Vec::new(alloc),
    }
}

/// A process is in the meeting with a caller: the accept's parameters take these values, in room that was taken before.
fn begin_at<'t>(state: &mut State<'t>, q: u32, caller: u32, args: Vec<Value>, meeting: Meeting<'t>)
    requires within { q < length state.old.activities.items }
    requires room { HasMeetingRoom state.old.activities.items q }
    ensures { IsBegun state.old state.new q caller args.items meeting.entry }
{
    let scope = meeting.scope;
    let frame = state.activities[q as usize].display.frame_of(scope);
    begin(&mut state.activities[q as usize], caller, meeting);
    let first = frame.first;
    state.store.take_parameters(frame.activation, first, args);
}

/// The process that acts takes a caller, in room that was taken before: the meeting begins, and its action is done. By the table the caller
/// is in the meeting already; it shows nothing more.
pub fn take_caller<'t>(
    alloc: Global,
    state: &mut State<'t>,
    p: u32,
    caller: u32,
    meeting: Meeting<'t>,
) -> Done
    requires may { MayEnd state.old p }
    requires within { caller < length state.old.activities.items }
    requires other { caller ≢ p }
    requires room { HasMeetingRoom state.old.activities.items p }
    ensures { IsTaken state.old state.new p caller meeting.entry result }
{
    let line = state.line_of(p);
    let args = take_asked(alloc, &mut state.activities[caller as usize]);
    begin_at(state, p, caller, args, meeting);
    state.end_action(p, line);
    Done::Stepped
}

/// The process that acts is taken by the owner of an entry, in room that was taken before: the meeting begins, and the caller's action is
/// done. By the table both are in it already.
pub(crate) fn meet_owner<'t>(
    state: &mut State<'t>,
    p: u32,
    q: u32,
    values: Vec<Value>,
    meeting: Meeting<'t>,
) -> Done
    requires may { MayEnd state.old p }
    requires within { q < length state.old.activities.items }
    requires other { q ≢ p }
    requires room { HasMeetingRoom state.old.activities.items q }
    ensures { IsMet state.old state.new p q values.items meeting.entry result }
{
    let line = state.line_of(p);
    begin_at(state, q, p, values, meeting);
    state.set_at_work(p, At::Rest);
    state.end_action(p, line);
    Done::Stepped
}

/// The process goes on behind its statement when it is ready, and shows this while it waits; its action is done. By the table it waits
/// already.
pub(crate) fn show<'t>(state: &mut State<'t>, p: u32, hand: Hand<'t>) -> Done
    requires { MayEnd state.old p }
    ensures { IsShown state.old state.new p hand.entry result }
{
    let line = state.line_of(p);
    let activity = &mut state.activities[p as usize];
    activity.doing.at = At::Rest;
    activity.hand = hand;
    state.end_action(p, line);
    Done::Stepped
}
