//! The variables that an action reads or writes.
ghost use Rattle.std.specs.Prelude.{IfOk};
ghost use Rattle.pfc_activities.specs.Relation.{MayAct};
ghost use Rattle.pfc_events.specs.Accesses.{AreAccesses, AreCalledBy, AreDecided, IsTouched};

use crate::choosing::taken;
use crate::places::touch;
use crate::sides::{call_writes, offer_writes};
use pfc_activities::State;
use pfc_base::Memory;
use pfc_hb::Access;
use pfc_pending::{Argument, Callee, Deed, Selecting};
use pfc_sched::Picker;
use pfc_store::Spot;
use std::alloc::Global;

/// The access of the variable of a spot of process p.
fn touch_for<'t>(
    alloc: Global,
    state: &State<'t>,
    p: u32,
    spot: &Spot,
    write: bool,
) -> Result<Vec<Access>, Memory>
    requires { MayAct state.now p }
    ensures { IfOk result (λ accesses. IsTouched state.now p spot.now write accesses.items) }
{
    touch(
        alloc,
        &state.store,
        &state.activities[p as usize].display,
        spot,
        write,
    )
}

/// What a call writes: that of an entry the parameters of an accept, any other nothing.
fn callee_writes<'t>(
    alloc: Global,
    state: &State<'t>,
    p: u32,
    callee: &Callee,
    args: &[Argument],
) -> Result<Vec<Access>, Memory>
    requires { MayAct state.now p }
    ensures { IfOk result (λ accesses. AreCalledBy state.now p callee.now args.now accesses.items) }
{
    match callee {
        Callee::Entry(spot, entry) => call_writes(alloc, state, p, spot, *entry, args),
        Callee::Procedure(_) => Ok(Vec::new(alloc)),
        Callee::Function(_) => Ok(Vec::new(alloc)),
        Callee::Module(_, _) => Ok(Vec::new(alloc)),
        Callee::Requeue(_) => Ok(Vec::new(alloc)),
        Callee::Process(_) => Ok(Vec::new(alloc)),
    }
}

/// What the alternative writes that a select takes, with the choice that the picker makes.
fn select_writes<'t>(
    alloc: Global,
    state: &State<'t>,
    p: u32,
    select: &Selecting<'t>,
    picker: &Picker,
) -> Result<Vec<Access>, Memory>
    requires { MayAct state.now p }
    ensures { IfOk result (λ accesses. AreDecided state.now p select.now picker.now accesses.items) }
{
    match taken(alloc, state, p, select, picker)? {
        Some(open) => offer_writes(alloc, state, p, &open.offer),
        None => Ok(Vec::new(alloc)),
    }
}

/// The variables that the action reads or writes which comes next for a process, with the choice that the picker makes. They are refused
/// where memory is, and where something does not fit that fits in every run.
pub(crate) fn accesses_of<'t>(
    alloc: Global,
    state: &State<'t>,
    p: u32,
    deed: &Deed<'t>,
    picker: &Picker,
) -> Result<Vec<Access>, Memory>
    requires { MayAct state.now p }
    ensures { IfOk result (λ accesses. AreAccesses state.now p deed.now picker.now accesses.items) }
{
    match deed {
        Deed::Reads(spot) => touch_for(alloc, state, p, spot, false),
        Deed::Writes(spot, _) => touch_for(alloc, state, p, spot, true),
        Deed::Inputs(_, spot) => touch_for(alloc, state, p, spot, true),
        Deed::Calls(callee, args) => callee_writes(alloc, state, p, callee, args),
        Deed::Meets(offer) => offer_writes(alloc, state, p, offer),
        Deed::Decides(select) => select_writes(alloc, state, p, select, picker),
        _ => Ok(Vec::new(alloc)),
    }
}
