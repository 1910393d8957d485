//! The decision: the first of the five steps that applies.
ghost use Rattle.std.specs.Prelude.{◌≡◌, ◌<◌, ◌≤◌, Some, length, IfOk, IfErr, OnErr, if◌then◌else◌};
ghost use Rattle.pfc_state.specs.Stands.{IsWaiting};
ghost use Rattle.pfc_world.specs.Partners.{partner};
ghost use Rattle.pfc_world.specs.Selects.{matched};
ghost use Rattle.pfc_world.specs.Tables.{at};
ghost use Rattle.pfc_semantics.specs.Selects.{place_taken};
ghost use Rattle.pfc_semantics.specs.Runs.{choice_among, behind_choice};
ghost use Rattle.pfc_activities.specs.Relation.{MayAct, StaysAt};
ghost use Rattle.pfc_meeting.specs.Meeting.{HasRoomAt};
ghost use Rattle.pfc_deciding.specs.Coming.{ComesTo, PerformsChosen};
ghost use Rattle.pfc_deciding.specs.Matching.{AreArms, takes_open_in, takes_in};

use crate::accepting::accepts_by;
use crate::matching::{Matched, arms_here, matched_at};
use crate::messages::{receives_from, sends_to};
use crate::own::{behind_open, room_here};
use crate::waiting::go_otherwise;
use pfc_activities::{Done, Source, State};
use pfc_base::Memory;
use pfc_meet::matches;
use pfc_meeting::communication_at;
use pfc_pending::{Offer, Open, Selecting};
use pfc_sched::Picker;
use pfc_world::Arm;
use std::alloc::Global;

/// A matched alternative is taken. It is refused where memory is, and where the partner offers nothing that fits, which never comes in a
/// run; nothing is to be seen of it then.
fn take_open<'t>(
    alloc: Global,
    source: &Source<'t>,
    state: &mut State<'t>,
    p: u32,
    open: &Open<'t>,
    met: Matched,
) -> Result<Done, Memory>
    requires may { MayAct state.old p }
    requires room { HasRoomAt state.old.activities.items p }
    requires waits { IsWaiting (at state.old.world.rows met.partner) }
    requires meets { partner state.old.world.rows p met.arm ≡ Some met.partner }
    ensures ok { IfOk result (λ d. ComesTo source.now state.old state.new p (takes_open_in open.now met p) d) }
    ensures err { OnErr result (StaysAt state.old state.new p) }
{
    let way = behind_open(open);
    match &open.offer {
        Offer::Send(_, value) => match met.arm {
            Arm::Send(channel) => sends_to(alloc, state, p, met.partner, channel, value, way),
            _ => Err(Memory),
        },
        Offer::Receive(_, target) => match met.arm {
            Arm::Receive(channel) => {
                receives_from(alloc, state, p, met.partner, channel, target, way)
            }
            _ => Err(Memory),
        },
        Offer::Accept(accepting) => match met.arm {
            Arm::Accept(entry) if entry == accepting.entry => {
                accepts_by(alloc, source, state, p, met.partner, *accepting, way)
            }
            _ => Err(Memory),
        },
        Offer::Wait(_) | Offer::End => Err(Memory),
    }
}

/// The matched alternative at this place, from 0, among those that are matched is taken. It is refused where memory is, and where there is
/// none, which never comes; nothing is to be seen of it then.
fn take_at<'t>(
    alloc: Global,
    source: &Source<'t>,
    state: &mut State<'t>,
    p: u32,
    select: &Selecting<'t>,
    arms: &[Arm],
    place: u32,
) -> Result<Done, Memory>
    requires may { MayAct state.old p }
    requires room { HasRoomAt state.old.activities.items p }
    requires few { length arms.now < 4294967296 }
    requires arms { AreArms state.old p select.now.offered.items arms.now }
    ensures ok { IfOk result (λ d. ComesTo source.now state.old state.new p (takes_in select.now place p) d) }
    ensures err { OnErr result (StaysAt state.old state.new p) }
{
    let Some(met) = matched_at(&state.world, p, arms, place) else {
        return Err(Memory);
    };
    let Some(open) = communication_at(&select.offered, met.place) else {
        return Err(Memory);
    };
    take_open(alloc, source, state, p, open, met)
}

/// The place that is taken among so many matched alternatives: the first with `pri`, else the one that the picker chooses next. Nothing is
/// drawn.
fn place_among(picker: &Picker, pri: bool, matched: u32) -> u32
    requires { 0 < matched }
    ensures { result ≡ place_taken pri (choice_among picker.now (if pri then 0 else matched)) }
{
    if pri { 0 } else { picker.next_choice(matched) }
}

/// The choice among so many matched alternatives is made: without `pri` the picker is behind it.
fn choose_among(picker: &mut Picker, pri: bool, matched: u32)
    requires { 0 < matched }
    ensures { picker.new ≡ behind_choice picker.old (if pri then 0 else matched) }
{
    if !pri {
        picker.choose(matched);
    }
}

/// The decision, over the alternatives that communicate, in room that was taken before.
fn decide<'t>(
    alloc: Global,
    source: &Source<'t>,
    state: &mut State<'t>,
    p: u32,
    select: Selecting<'t>,
    arms: &[Arm],
    picker: &mut Picker,
) -> Result<Done, Selecting<'t>>
    requires may { MayAct state.old p }
    requires place { HasRoomAt state.old.activities.items p }
    requires few { length arms.now < 4294967296 }
    requires room { length arms.now ≤ state.old.world.room }
    requires arms { AreArms state.old p select.offered.items arms.now }
    ensures ok { IfOk result (λ d. PerformsChosen source.now state.old state.new picker.old picker.new p select.entry d) }
    ensures err { OnErr result (StaysAt state.old state.new p) }
    ensures given { IfErr result (λ given. given ≡ select.entry) }
    ensures unchosen { OnErr result (picker.new ≡ picker.old) }
{
    let matched = matches(&state.world, p, arms);
    if matched == 0 {
        return Ok(go_otherwise(state, p, select, arms));
    }
    let place = place_among(picker, select.pri, matched);
    match take_at(alloc, source, state, p, &select, arms, place) {
        Ok(done) => {
            choose_among(picker, select.pri, matched);
            Ok(done)
        }
        Err(Memory) => Err(select),
    }
}

/// The deciding action of a select: by the choice of the picker, which is asked for one exactly where a plain select has something to choose
/// among. It is refused where memory is, and where something does not fit that fits in every run; nothing is to be seen of it then, and no
/// choice was made.
pub fn decides<'t>(
    alloc: Global,
    source: &Source<'t>,
    state: &mut State<'t>,
    p: u32,
    select: Selecting<'t>,
    picker: &mut Picker,
) -> Result<Done, Selecting<'t>>
    requires { MayAct state.old p }
    ensures ok { IfOk result (λ d. PerformsChosen source.now state.old state.new picker.old picker.new p select.entry d) }
    ensures err { OnErr result (StaysAt state.old state.new p) }
    ensures given { IfErr result (λ given. given ≡ select.entry) }
    ensures unchosen { OnErr result (picker.new ≡ picker.old) }
{
    let Ok(()) = room_here(state, p) else {
        return Err(select);
    };
    let Ok(arms) = arms_here(alloc, state, p, &select.offered) else {
        return Err(select);
    };
    decide(alloc, source, state, p, select, &arms, picker)
}
