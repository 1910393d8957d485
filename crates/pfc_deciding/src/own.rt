//! The own way of the process that acts, behind its alternative.
ghost use Rattle.std.specs.Prelude.{◌≡◌, ◌<◌, length, OnOk};
ghost use Rattle.pfc_activities.specs.Relation.{MayAct, StaysAt};
ghost use Rattle.pfc_activities.specs.declared.source.Source.{Source};
ghost use Rattle.pfc_meeting.specs.Meeting.{HasRoomAt};
ghost use Rattle.pfc_deciding.specs.Coming.{ComesTo, IsAlike, IsUnderWay, on_behind};

use pfc_activities::{Done, State};
use pfc_base::Memory;
use pfc_meeting::{Onward, go_onward, make_room};
use pfc_pending::{At, Open, Otherwise, Replica, Stmts};

/// All that is behind an alternative: the write of its replica where there is one, and its statements, whose next scope has this number.
#[derive(Clone, Copy)]
pub(crate) struct Behind<'t> {
    pub(crate) replica: Option<Replica>,
    pub(crate) next: u32,
    pub(crate) stmts: Stmts<'t>,
}

/// What is behind an open alternative.
pub(crate) fn behind_open<'t>(open: &Open<'t>) -> Behind<'t>
    ensures { result ≡ record { replica = open.now.replica; next = open.now.next; stmts = open.now.stmts } }
{
    Behind {
        replica: open.replica,
        next: open.next,
        stmts: open.stmts,
    }
}

/// What is behind `else`.
pub(crate) fn behind_else<'t>(other: Otherwise<'t>) -> Behind<'t>
    ensures { result ≡ record { replica = None; next = other.entry.next; stmts = other.entry.stmts } }
{
    Behind {
        replica: None,
        next: other.next,
        stmts: other.stmts,
    }
}

/// Takes room for two parts more at the process that acts. Its only refusal is want of memory; there is nothing to be seen of it.
pub(crate) fn room_here<'t>(state: &mut State<'t>, p: u32) -> Result<(), Memory>
    requires { p < length state.old.activities.items }
    ensures alike { IsAlike state.old state.new }
    ensures same { StaysAt state.old state.new p }
    ensures room { OnOk result (HasRoomAt state.new.activities.items p) }
{
    make_room(&mut state.activities[p as usize])
}

/// The process has its own way behind its action, in room that was taken before.
pub(crate) fn take_way<'t>(state: &mut State<'t>, p: u32, way: Behind<'t>)
    requires within { p < length state.old.activities.items }
    requires room { HasRoomAt state.old.activities.items p }
    ensures { IsUnderWay state.old state.new p way.entry }
{
    let activity = &mut state.activities[p as usize];
    let kept = activity.doing.pending.len();
    let onward = Onward {
        kept,
        replica: way.replica,
        next: way.next,
        stmts: way.stmts,
    };
    go_onward(activity, onward);
}

/// The process goes on so, in room that was taken before.
pub(crate) fn go_behind<'t>(state: &mut State<'t>, p: u32, way: Behind<'t>) -> Done
    requires may { MayAct state.old p }
    requires room { HasRoomAt state.old.activities.items p }
    ensures { (source : Source) → ComesTo source state.old state.new p (on_behind way.entry p) result }
{
    take_way(state, p, way);
    state.go_on(p, At::Rest)
}
