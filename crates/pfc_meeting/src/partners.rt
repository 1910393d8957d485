//! What a process that waits offers to its partner.
ghost use Rattle.std.specs.Prelude.{◌≡◌, ℕ, IfOk, Option, option_map};
ghost use Rattle.pfc_program.specs.declared.tables.Tables.{Tables};
ghost use Rattle.pfc_state.specs.declared.waits.Arm.TheVariants.{Send as To, Receive as From};
ghost use Rattle.pfc_store.specs.Views.{store_view, value_view, location_view, spot_view};
ghost use Rattle.pfc_semantics.specs.Displays.{Spot as SpotSeen, located};
ghost use Rattle.pfc_semantics.specs.Values.{Value as ValueSeen};
ghost use Rattle.pfc_semantics.specs.Programs.{Program};
ghost use Rattle.pfc_semantics.specs.Configurations.{Config, activity_of, doing_next};
ghost use Rattle.pfc_semantics.specs.Channels.{sent_to, received_from, delivered};
ghost use Rattle.pfc_meeting.specs.Meeting.{met_side, side_held, onward_of, doing_onward, delivered_into};

use crate::{Onward, first_open};
use pfc_activities::{Activity, Hand};
use pfc_base::Memory;
use pfc_pending::{Offer, Open};
use pfc_store::{Display, Location, Spot, Store, Value};
use pfc_world::Arm;
use std::alloc::Global;

/// An alternative at which a process is met, with the line of its statement, and how much of what is pending is left behind it.
#[derive(Clone, Copy)]
pub struct Met<'o, 't> {
    pub offered: &'o Open<'t>,
    pub line: u32,
    pub kept: usize,
}

/// A process that waits for a message: how it goes on, and where the message lies then, unless it has no value.
#[derive(Drop)]
pub struct Receiver<'t> {
    pub way: Onward<'t>,
    pub into: Option<Location>,
}

/// A process that waits to send a message: how it goes on, and the message.
#[derive(Drop)]
pub struct Sender<'t> {
    pub way: Onward<'t>,
    pub value: Value,
}

/// How the process goes on behind it.
fn way_behind<'t>(met: Met<'_, 't>) -> Onward<'t>
    ensures { result ≡ onward_of met.entry }
{
    Onward {
        kept: met.kept,
        replica: met.offered.replica,
        next: met.offered.next,
        stmts: met.offered.stmts,
    }
}

/// The first alternative of a process that is open to this. It is refused where a number is past 2^32.
pub fn met_at<'o, 't>(
    store: &Store,
    activity: &'o Activity<'t>,
    arm: Arm,
) -> Result<Option<Met<'o, 't>>, Memory>
    ensures { IfOk result (λ found. (t : Tables) → side_held t (store_view store.now) activity.now arm ≡ option_map (met_side t activity.now) found) }
{
    let Hand::Offering(offering) = &activity.hand else {
        return Ok(None);
    };
    let found = first_open(store, &activity.display, arm, &offering.opens)?;
    let Some(offered) = found else {
        return Ok(None);
    };
    Ok(Some(Met {
        offered,
        line: offering.line,
        kept: offering.kept,
    }))
}

/// Where a message is to lie, unless it has no value. Its only refusal is want of memory.
pub fn place_of(
    alloc: Global,
    store: &Store,
    display: &Display,
    target: &Option<Spot>,
) -> Result<Option<Location>, Memory>
    ensures { IfOk result (λ into. option_map location_view into ≡ option_map (λ s. located (store_view store.now) display.now (spot_view s)) target.now) }
{
    match target {
        Some(spot) => Ok(Some(store.located(alloc, display, spot)?)),
        None => Ok(None),
    }
}

/// The receiver that a process is which waits to receive from this channel. It is refused where memory is, and where the process offers
/// no such thing, which never comes in a run.
pub fn met_receiver<'t>(
    alloc: Global,
    store: &Store,
    activity: &Activity<'t>,
    channel: u32,
) -> Result<Receiver<'t>, Memory>
    ensures { IfOk result (λ r. (t : Tables) (g : Program) (c : Config) (q : ℕ) (v : ValueSeen) → c.store ≡ store_view store.now →
        (activity_of g c q).display ≡ activity.now.display → sent_to g c q v (side_held t (store_view store.now) activity.now (From channel)) ≡ doing_next g
        (delivered_into c r.into v) q (doing_onward t activity.now r.way)) }
{
    let Some(met) = met_at(store, activity, Arm::Receive(channel))? else {
        return Err(Memory);
    };
    let Offer::Receive(_, target) = &met.offered.offer else {
        return Err(Memory);
    };
    let way = way_behind(met);
    let into = place_of(alloc, store, &activity.display, target)?;
    Ok(Receiver { way, into })
}

/// The sender that a process is which waits to send to this channel. It is refused where memory is, and where the process offers no such
/// thing, which never comes in a run.
pub fn met_sender<'t>(
    alloc: Global,
    store: &Store,
    activity: &Activity<'t>,
    channel: u32,
) -> Result<Sender<'t>, Memory>
    ensures { IfOk result (λ r. (t : Tables) (g : Program) (c : Config) (p q : ℕ) (target : Option SpotSeen) →
        received_from g c p target q (side_held t (store_view store.now) activity.now (To channel)) ≡ doing_next g
        (delivered g c p target (value_view r.value)) q (doing_onward t activity.now r.way)) }
{
    let Some(met) = met_at(store, activity, Arm::Send(channel))? else {
        return Err(Memory);
    };
    let Offer::Send(_, value) = &met.offered.offer else {
        return Err(Memory);
    };
    let way = way_behind(met);
    let value = value.copy(alloc)?;
    Ok(Sender { way, value })
}
