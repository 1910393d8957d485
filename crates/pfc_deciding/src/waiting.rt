//! What a select does without a matched alternative.
ghost use Rattle.std.specs.Prelude.{◌≡◌, ◌<◌, ◌≤◌, ◌*◌, ◌^◌, [], length};
ghost use Rattle.pfc_world.specs.Selects.{matched};
ghost use Rattle.pfc_program.specs.declared.tables.Tables.{Tables};
ghost use Rattle.pfc_activities.specs.Relation.{MayAct};
ghost use Rattle.pfc_activities.specs.declared.source.Source.{Source};
ghost use Rattle.pfc_activities.specs.Shown.{activity_shown};
ghost use Rattle.pfc_meeting.specs.Meeting.{HasRoomAt};
ghost use Rattle.pfc_deciding.specs.Coming.{ComesTo};
ghost use Rattle.pfc_deciding.specs.Matching.{AreArms};
ghost use Rattle.pfc_deciding.specs.Waiting.{offers_all, ShowsAll, due_at, goes_otherwise_in, times_out_in, waits_in, waits_for_in};

use crate::own::{Behind, behind_else, behind_open, go_behind, take_way};
use pfc_activities::{Activity, Done, Hand, Offering, State};
use pfc_base::RunFault;
use pfc_meet::select_wait;
use pfc_meeting::{first_delay, may_terminate};
use pfc_pending::{At, Open, Selecting};
use pfc_world::Arm;

/// The last due moment.
const LATEST: u64 = 1_000_000_000_000_000;

/// The moment so many seconds behind this one; None where it is too late.
fn due_behind(moment: u64, seconds: u64) -> Option<u64>
    requires { moment < 2 * 10 ^ 18 }
    ensures { result ≡ due_at moment seconds }
{
    if seconds > LATEST {
        return None;
    }
    let due = moment + 1000 * seconds;
    if due <= LATEST { Some(due) } else { None }
}

/// The process has ended its action, and shows all that is open while it waits: behind an alternative the first `kept` of what is pending is
/// left.
fn show_all<'t>(activity: &mut Activity<'t>, opens: Vec<Open<'t>>, kept: usize)
    ensures { (t : Tables) → activity_shown t activity.new ≡ offers_all t activity.old opens.entry.items kept }
{
    let offering = Offering {
        line: activity.doing.line,
        opens,
        kept,
    };
    activity.doing.at = At::Rest;
    activity.hand = Hand::Offering(offering);
}

/// The process waits with all that is open, until the due moment where there is one.
fn wait_until<'t>(
    state: &mut State<'t>,
    p: u32,
    opens: Vec<Open<'t>>,
    arms: &[Arm],
    kept: usize,
    due: Option<u64>,
) -> Done
    requires may { MayAct state.old p }
    requires room { length arms.now ≤ state.old.world.room }
    requires unmatched { matched state.old.world.rows p arms.now ≡ [] }
    ensures { ShowsAll state.old state.new p opens.entry.items arms.now kept due result }
{
    let terminate = may_terminate(&opens);
    let line = state.line_of(p);
    let r = state.world.begin(p);
    select_wait(&mut state.world, r, arms, due, terminate);
    show_all(&mut state.activities[p as usize], opens, kept);
    state.end_action(p, line);
    Done::Stepped
}

/// The process waits with all that is open; where nothing is, that is a fault.
fn wait_or_close<'t>(state: &mut State<'t>, p: u32, select: Selecting<'t>, arms: &[Arm]) -> Done
    requires may { MayAct state.old p }
    requires room { length arms.now ≤ state.old.world.room }
    requires arms { AreArms state.old p select.offered.items arms.now }
    requires unmatched { matched state.old.world.rows p arms.now ≡ [] }
    ensures { (source : Source) → ComesTo source state.old state.new p (waits_in select.entry p) result }
{
    if select.offered.is_empty() {
        return state.end_in_fault(p, RunFault::Closed);
    }
    let kept = state.activities[p as usize].doing.pending.len();
    wait_until(state, p, select.offered, arms, kept, None)
}

/// The process waits with all that is open, until so many seconds have gone by, and then goes the way of its `timeout`; a moment too late is
/// a fault.
fn wait_for<'t>(
    state: &mut State<'t>,
    p: u32,
    select: Selecting<'t>,
    arms: &[Arm],
    seconds: u64,
    way: Behind<'t>,
) -> Done
    requires may { MayAct state.old p }
    requires place { HasRoomAt state.old.activities.items p }
    requires room { length arms.now ≤ state.old.world.room }
    requires arms { AreArms state.old p select.offered.items arms.now }
    requires unmatched { matched state.old.world.rows p arms.now ≡ [] }
    ensures { (source : Source) → ComesTo source state.old state.new p (waits_for_in select.entry seconds way.entry p) result }
{
    let Some(due) = due_behind(state.world.now(), seconds) else {
        return state.end_in_fault(p, RunFault::Late);
    };
    let kept = state.activities[p as usize].doing.pending.len();
    take_way(state, p, way);
    wait_until(state, p, select.offered, arms, kept, Some(due))
}

/// An open `timeout 0` is taken; with another the process waits for its moment, and without one it waits with all that is open.
fn time_out<'t>(state: &mut State<'t>, p: u32, select: Selecting<'t>, arms: &[Arm]) -> Done
    requires may { MayAct state.old p }
    requires place { HasRoomAt state.old.activities.items p }
    requires room { length arms.now ≤ state.old.world.room }
    requires arms { AreArms state.old p select.offered.items arms.now }
    requires unmatched { matched state.old.world.rows p arms.now ≡ [] }
    ensures { (source : Source) → ComesTo source state.old state.new p (times_out_in select.entry p) result }
{
    let Some(delay) = first_delay(&select.offered) else {
        return wait_or_close(state, p, select, arms);
    };
    let seconds = delay.seconds;
    let way = behind_open(delay.at);
    if seconds == 0 {
        return go_behind(state, p, way);
    }
    wait_for(state, p, select, arms, seconds, way)
}

/// Where no alternative is matched: an `else` part is taken, and without one the process times out, or waits.
pub(crate) fn go_otherwise<'t>(
    state: &mut State<'t>,
    p: u32,
    select: Selecting<'t>,
    arms: &[Arm],
) -> Done
    requires may { MayAct state.old p }
    requires place { HasRoomAt state.old.activities.items p }
    requires room { length arms.now ≤ state.old.world.room }
    requires arms { AreArms state.old p select.offered.items arms.now }
    requires unmatched { matched state.old.world.rows p arms.now ≡ [] }
    ensures { (source : Source) → ComesTo source state.old state.new p (goes_otherwise_in select.entry p) result }
{
    match select.otherwise {
        Some(other) => go_behind(state, p, behind_else(other)),
        None => time_out(state, p, select, arms),
    }
}
