//! Reads and writes of variables.
ghost use Rattle.pfc_pending.specs.declared.actions.Deed.TheVariants as deed;
ghost use Rattle.pfc_activities.specs.declared.source.Source.{Source as HeldSource};
ghost use Rattle.pfc_activities.specs.Relation.{MayAct};
ghost use Rattle.pfc_performing.specs.Performing.{IsTried};

use pfc_activities::{Done, State};
use pfc_deeds::{inputs, reads, writes};
use pfc_pending::Deed;
use pfc_store::{Spot, Value};
use pfc_types::TypeId;
use std::alloc::Global;

#[inline(never)]
pub(crate) fn read<'t>(
    alloc: Global,
    state: &mut State<'t>,
    p: u32,
    spot: Spot,
) -> Result<Done, Deed<'t>>
    requires { MayAct state.old p }
    ensures { (source : HeldSource) → IsTried source state.old state.new p (deed.Reads spot) result }
{
    match reads(alloc, state, p, spot) {
        Ok(done) => Ok(done),
        Err(spot) => Err(Deed::Reads(spot)),
    }
}

#[inline(never)]
pub(crate) fn write<'t>(
    alloc: Global,
    state: &mut State<'t>,
    p: u32,
    spot: Spot,
    value: Value,
) -> Result<Done, Deed<'t>>
    requires { MayAct state.old p }
    ensures { (source : HeldSource) → IsTried source state.old state.new p (deed.Writes spot value) result }
{
    match writes(alloc, state, p, spot, value) {
        Ok(done) => Ok(done),
        Err((spot, value)) => Err(Deed::Writes(spot, value)),
    }
}

pub(crate) fn input<'t>(
    alloc: Global,
    state: &mut State<'t>,
    p: u32,
    t: Option<TypeId>,
    spot: Spot,
) -> Result<Done, Deed<'t>>
    requires { MayAct state.old p }
    ensures { (source : HeldSource) → IsTried source state.old state.new p (deed.Inputs t spot) result }
{
    match inputs(alloc, state, p, t, spot) {
        Ok(done) => Ok(done),
        Err(spot) => Err(Deed::Inputs(t, spot)),
    }
}
