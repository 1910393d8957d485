//! Scans and guards of resources.
ghost use Rattle.pfc_pending.specs.declared.actions.Deed.TheVariants as deed;
ghost use Rattle.pfc_activities.specs.declared.source.Source.{Source as HeldSource};
ghost use Rattle.pfc_activities.specs.Relation.{MayAct};
ghost use Rattle.pfc_performing.specs.Performing.{IsTried};

use pfc_activities::{Done, State};
use pfc_guarding::{bars, passes, scans};
use pfc_pending::{Bar, Deed, Scan, Tried};

pub(crate) fn scan<'t>(state: &mut State<'t>, p: u32, scan: Scan<'t>) -> Result<Done, Deed<'t>>
    requires { MayAct state.old p }
    ensures { (source : HeldSource) → IsTried source state.old state.new p (deed.Scans scan.entry) result }
{
    match scans(state, p, scan) {
        Ok(done) => Ok(done),
        Err(scan) => Err(Deed::Scans(scan)),
    }
}

pub(crate) fn bar<'t>(state: &mut State<'t>, p: u32, bar: Bar<'t>) -> Result<Done, Deed<'t>>
    requires { MayAct state.old p }
    ensures { (source : HeldSource) → IsTried source state.old state.new p (deed.Bars bar.entry) result }
{
    match bars(state, p, bar) {
        Ok(done) => Ok(done),
        Err(bar) => Err(Deed::Bars(bar)),
    }
}

pub(crate) fn pass<'t>(
    state: &mut State<'t>,
    p: u32,
    tried: Tried<'t>,
    scan: Scan<'t>,
) -> Result<Done, Deed<'t>>
    requires { MayAct state.old p }
    ensures { (source : HeldSource) → IsTried source state.old state.new p (deed.Passes tried.entry scan.entry) result }
{
    match passes(state, p, tried, scan) {
        Ok(done) => Ok(done),
        Err((tried, scan)) => Err(Deed::Passes(tried, scan)),
    }
}
