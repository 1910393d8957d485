//! Communication, and the ends of accepts.
ghost use Rattle.pfc_pending.specs.declared.actions.Deed.TheVariants as deed;
ghost use Rattle.pfc_pending.specs.declared.select.Offer.TheVariants as offer;
ghost use Rattle.pfc_activities.specs.declared.source.Source.{Source as HeldSource};
ghost use Rattle.pfc_activities.specs.Relation.{MayAct};
ghost use Rattle.pfc_performing.specs.Performing.{IsTried};

use pfc_accepting::accepts;
use pfc_activities::{Done, Source, State};
use pfc_base::Memory;
use pfc_meeting::parts;
use pfc_messages::{receives, sends};
use pfc_pending::{Accepting, Deed, Offer};
use pfc_store::{Spot, Value};
use std::alloc::Global;

pub(crate) fn part<'t>(state: &mut State<'t>, p: u32, caller: u32) -> Result<Done, Deed<'t>>
    requires { MayAct state.old p }
    ensures { (source : HeldSource) → IsTried source state.old state.new p (deed.Parts caller) result }
{
    match parts(state, p, caller) {
        Ok(done) => Ok(done),
        Err(Memory) => Err(Deed::Parts(caller)),
    }
}

fn send<'t>(
    alloc: Global,
    source: &Source<'t>,
    state: &mut State<'t>,
    p: u32,
    channel: Spot,
    value: Value,
) -> Result<Done, Deed<'t>>
    requires { MayAct state.old p }
    ensures { IsTried source.now state.old state.new p (deed.Meets (offer.Send channel value)) result }
{
    match sends(alloc, source, state, p, channel, value) {
        Ok(done) => Ok(done),
        Err(offer) => Err(Deed::Meets(offer)),
    }
}

fn receive<'t>(
    alloc: Global,
    source: &Source<'t>,
    state: &mut State<'t>,
    p: u32,
    channel: Spot,
    target: Option<Spot>,
) -> Result<Done, Deed<'t>>
    requires { MayAct state.old p }
    ensures { IsTried source.now state.old state.new p (deed.Meets (offer.Receive channel target)) result }
{
    match receives(alloc, source, state, p, channel, target) {
        Ok(done) => Ok(done),
        Err(offer) => Err(Deed::Meets(offer)),
    }
}

fn accept<'t>(
    alloc: Global,
    source: &Source<'t>,
    state: &mut State<'t>,
    p: u32,
    accepting: Accepting<'t>,
) -> Result<Done, Deed<'t>>
    requires { MayAct state.old p }
    ensures { IsTried source.now state.old state.new p (deed.Meets (offer.Accept accepting.entry)) result }
{
    match accepts(alloc, source, state, p, accepting) {
        Ok(done) => Ok(done),
        Err(Memory) => Err(Deed::Meets(Offer::Accept(accepting))),
    }
}

/// A plain `!`, `?` or `accept`. Another offer, which never stands alone, counts as want of memory.
#[tactic(auto, using(crate::proofs::Performed::stays))]
pub(crate) fn meet<'t>(
    alloc: Global,
    source: &Source<'t>,
    state: &mut State<'t>,
    p: u32,
    offer: Offer<'t>,
) -> Result<Done, Deed<'t>>
    requires { MayAct state.old p }
    ensures { IsTried source.now state.old state.new p (deed.Meets offer.entry) result }
{
    match offer {
        Offer::Send(channel, value) => send(alloc, source, state, p, channel, value),
        Offer::Receive(channel, target) => receive(alloc, source, state, p, channel, target),
        Offer::Accept(accepting) => accept(alloc, source, state, p, accepting),
        other => Err(Deed::Meets(other)),
    }
}
