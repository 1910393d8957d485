//! The alternative that a select takes.
ghost use Rattle.std.specs.Prelude.{◌≡◌, ◌<◌, length, slice_get, IfOk, if◌then◌else◌};
ghost use Rattle.pfc_semantics.specs.Runs.{choice_among};
ghost use Rattle.pfc_semantics.specs.Selects.{place_taken};
ghost use Rattle.pfc_world.specs.Selects.{matched};
ghost use Rattle.pfc_activities.specs.Relation.{MayAct};
ghost use Rattle.pfc_events.specs.Choosing.{IsTaken};

use crate::partners::place_matched;
use pfc_activities::State;
use pfc_base::Memory;
use pfc_meet::matches;
use pfc_meeting::{arms_of_all, communication_at};
use pfc_pending::{Open, Selecting};
use pfc_sched::Picker;
use pfc_world::{Arm, World};
use std::alloc::Global;

/// The place that is taken among so many matched alternatives: the first with `pri`, else the one that the picker chooses next. Nothing is
/// drawn.
fn place_among(picker: &Picker, pri: bool, matched: u32) -> u32
    requires { 0 < matched }
    ensures { result ≡ place_taken pri (choice_among picker.now (if pri then 0 else matched)) }
{
    if pri { 0 } else { picker.next_choice(matched) }
}

/// The place, from 0, of the alternative that is taken among these of process p that communicate; None where none of them is matched.
fn place_of(world: &World, p: u32, arms: &[Arm], pri: bool, picker: &Picker) -> Option<u32>
    requires { length arms.now < 4294967296 }
    ensures { result ≡ slice_get (matched world.now.rows p arms.now) (place_taken pri (choice_among picker.now (if pri then
        0 else length (matched world.now.rows p arms.now)))) }
{
    let found = matches(world, p, arms);
    if found == 0 {
        return None;
    }
    place_matched(world, p, arms, place_among(picker, pri, found))
}

/// The open alternative that a select takes because a partner waits, by the choice that the picker makes next; None where it takes no such
/// one. It is refused where memory is, and where something is past 2^32, which never comes in a run.
pub(crate) fn taken<'o, 't>(
    alloc: Global,
    state: &State<'t>,
    p: u32,
    select: &'o Selecting<'t>,
    picker: &Picker,
) -> Result<Option<&'o Open<'t>>, Memory>
    requires { MayAct state.now p }
    ensures { IfOk result (λ taken. IsTaken state.now p select.now picker.now taken) }
{
    let display = &state.activities[p as usize].display;
    let arms = arms_of_all(alloc, &state.store, display, &select.offered)?;
    if arms.len() > 4_294_967_295 {
        return Err(Memory);
    }
    match place_of(&state.world, p, &arms, select.pri, picker) {
        Some(place) => Ok(communication_at(&select.offered, place)),
        None => Ok(None),
    }
}
