//! A call of an entry of a process.
ghost use Rattle.std.specs.Prelude.{◌≡◌, ◌<◌, false, true, [], length, map, IfOk, IfErr, OnErr};
ghost use Rattle.pfc_world.specs.Partners.{is_accepting as is_accepting_in};
ghost use Rattle.pfc_world.specs.Rendezvous.{is_uncalled as is_uncalled_in};
ghost use Rattle.pfc_pending.specs.Waiting.{given_view};
ghost use Rattle.pfc_pending.specs.declared.actions.Deed.TheVariants as deed;
ghost use Rattle.pfc_pending.specs.declared.pending.Callee.TheVariants as callee;
ghost use Rattle.pfc_activities.specs.Relation.{MayAct, Performs, StaysAt};
ghost use Rattle.pfc_store.specs.Views.{store_view, values_view, spot_view};
ghost use Rattle.pfc_accepting.specs.Acting.{IsEntered, IsEnteredBy};
ghost use Rattle.pfc_accepting.specs.Meetings.{HasMeetingRoom};
ghost use Rattle.pfc_activities.specs.declared.source.Source.{Source};

use crate::beginning::{meet_owner, show};
use crate::owners::owner_of;
use crate::rules::{call_by, is_accepting, is_uncalled};
use crate::{meeting_at, room_for_meeting};
use pfc_activating::passed;
use pfc_activities::{Done, Hand, Source, State};
use pfc_base::{Memory, RunFault};
use pfc_meeting::object_at;
use pfc_pending::Argument;
use pfc_store::{Spot, Value};
use std::alloc::Global;

/// A call of an entry of the process that a spot names, with these arguments. The fault is that of a process that is not active, where it
/// is idle or finished. Where it waits to accept the entry the meeting begins; else the process waits for the entry, and shows its arguments.
/// Want of memory changes nothing that is to be seen, and gives the spot and the arguments back; a process that is none, and one that offers
/// no such accept, which never come, count as one.
pub fn enters<'t>(
    alloc: Global,
    source: &Source<'t>,
    state: &mut State<'t>,
    p: u32,
    spot: Spot,
    entry: u32,
    args: Vec<Argument>,
) -> Result<Done, (Spot, Vec<Argument>)>
    requires { MayAct state.old p }
    ensures ok { IfOk result (λ d. Performs source.now state.old state.new p (deed.Calls (callee.Entry spot entry) args) [] d) }
    ensures err { OnErr result (StaysAt state.old state.new p) }
    ensures given { IfErr result (λ given. given ≡ (spot, args)) }
{
    match enters_at(alloc, source, state, p, &spot, entry, &args) {
        Ok(done) => Ok(done),
        Err(Memory) => Err((spot, args)),
    }
}

/// The same, of a spot and arguments that are kept.
fn enters_at<'t>(
    alloc: Global,
    source: &Source<'t>,
    state: &mut State<'t>,
    p: u32,
    spot: &Spot,
    entry: u32,
    args: &[Argument],
) -> Result<Done, Memory>
    requires { MayAct state.old p }
    ensures ok { IfOk result (λ d. IsEntered source.now state.old state.new p spot.now entry args.now d) }
    ensures err { OnErr result (StaysAt state.old state.new p) }
{
    let display = &state.activities[p as usize].display;
    let q = object_at(&state.store, display, spot)?;
    let values = passed(alloc, &state.store, display, args)?;
    if q >= state.world.processes() {
        return Err(Memory);
    }
    if is_uncalled(&state.world, q) {
        return Ok(state.end_in_fault(p, RunFault::NotActive));
    }
    if is_accepting(&state.world, q, entry) {
        room_for_meeting(state, q)?;
        meets_owner(alloc, source, state, p, q, entry, values)
    } else {
        Ok(waits_for_owner(state, p, q, entry, values))
    }
}

/// The owner of the entry waits to accept it: the meeting begins, in room that was taken before. It is refused where memory is, and where
/// the owner offers no such accept, which never comes in a run.
fn meets_owner<'t>(
    alloc: Global,
    source: &Source<'t>,
    state: &mut State<'t>,
    p: u32,
    q: u32,
    entry: u32,
    values: Vec<Value>,
) -> Result<Done, Memory>
    requires may { MayAct state.old p }
    requires known { q < length state.old.world.rows }
    requires within { q < length state.old.activities.items }
    requires active { is_uncalled_in state.old.world q ≡ false }
    requires accepting { is_accepting_in state.old.world.rows q entry ≡ true }
    requires room { HasMeetingRoom state.old.activities.items q }
    ensures ok { IfOk result (λ d. IsEnteredBy source.now state.old state.new p q entry values.items d) }
    ensures err { OnErr result (state.new ≡ state.old) }
{
    let partner = &state.activities[q as usize];
    let owner = owner_of(&state.store, partner, entry)?;
    let meeting = meeting_at(
        alloc,
        source,
        &partner.doing.names,
        owner.accepting,
        owner.way,
    )?;
    call_by(&mut state.world, p, q, entry);
    Ok(meet_owner(state, p, q, values, meeting))
}

/// The owner of the entry does not wait to accept it: the process waits, and shows its arguments.
fn waits_for_owner<'t>(
    state: &mut State<'t>,
    p: u32,
    q: u32,
    entry: u32,
    values: Vec<Value>,
) -> Done
    requires may { MayAct state.old p }
    requires known { q < length state.old.world.rows }
    requires active { is_uncalled_in state.old.world q ≡ false }
    requires elsewhere { is_accepting_in state.old.world.rows q entry ≡ false }
    ensures { (source : Source) → IsEnteredBy source state.old state.new p q entry values.items result }
{
    call_by(&mut state.world, p, q, entry);
    show(state, p, Hand::Asking(values))
}
