//! Actions at semaphores, monitors and conditions.
ghost use Rattle.pfc_pending.specs.declared.actions.Deed.TheVariants as deed;
ghost use Rattle.pfc_activities.specs.declared.source.Source.{Source as HeldSource};
ghost use Rattle.pfc_activities.specs.Relation.{MayAct};
ghost use Rattle.pfc_performing.specs.Performing.{IsTried};

use pfc_activities::{Done, State};
use pfc_pending::Deed;
use pfc_store::Spot;
use pfc_waiting::{asks_empty, delays, initials, resumes, signals, waits};

pub(crate) fn wait<'t>(state: &mut State<'t>, p: u32, spot: Spot) -> Result<Done, Deed<'t>>
    requires { MayAct state.old p }
    ensures { (source : HeldSource) → IsTried source state.old state.new p (deed.Waits spot) result }
{
    match waits(state, p, spot) {
        Ok(done) => Ok(done),
        Err(spot) => Err(Deed::Waits(spot)),
    }
}

pub(crate) fn signal<'t>(state: &mut State<'t>, p: u32, spot: Spot) -> Result<Done, Deed<'t>>
    requires { MayAct state.old p }
    ensures { (source : HeldSource) → IsTried source state.old state.new p (deed.Signals spot) result }
{
    match signals(state, p, spot) {
        Ok(done) => Ok(done),
        Err(spot) => Err(Deed::Signals(spot)),
    }
}

pub(crate) fn initial<'t>(
    state: &mut State<'t>,
    p: u32,
    spot: Spot,
    n: i64,
) -> Result<Done, Deed<'t>>
    requires { MayAct state.old p }
    ensures { (source : HeldSource) → IsTried source state.old state.new p (deed.Initials spot n) result }
{
    match initials(state, p, spot, n) {
        Ok(done) => Ok(done),
        Err(spot) => Err(Deed::Initials(spot, n)),
    }
}

pub(crate) fn ask_empty<'t>(state: &mut State<'t>, p: u32, spot: Spot) -> Result<Done, Deed<'t>>
    requires { MayAct state.old p }
    ensures { (source : HeldSource) → IsTried source state.old state.new p (deed.AsksEmpty spot) result }
{
    match asks_empty(state, p, spot) {
        Ok(done) => Ok(done),
        Err(spot) => Err(Deed::AsksEmpty(spot)),
    }
}

pub(crate) fn delay<'t>(
    state: &mut State<'t>,
    p: u32,
    spot: Spot,
    rank: i64,
) -> Result<Done, Deed<'t>>
    requires { MayAct state.old p }
    ensures { (source : HeldSource) → IsTried source state.old state.new p (deed.Delays spot rank) result }
{
    match delays(state, p, spot, rank) {
        Ok(done) => Ok(done),
        Err(spot) => Err(Deed::Delays(spot, rank)),
    }
}

pub(crate) fn resume<'t>(state: &mut State<'t>, p: u32, spot: Spot) -> Result<Done, Deed<'t>>
    requires { MayAct state.old p }
    ensures { (source : HeldSource) → IsTried source state.old state.new p (deed.Resumes spot) result }
{
    match resumes(state, p, spot) {
        Ok(done) => Ok(done),
        Err(spot) => Err(Deed::Resumes(spot)),
    }
}
