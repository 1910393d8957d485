//! What passes between a process and its partner.
ghost use Rattle.std.specs.Prelude.{◌≡◌, IfOk};
ghost use Rattle.pfc_program.specs.declared.tables.Tables.{Tables};
ghost use Rattle.pfc_semantics.specs.Rendezvous.{asked};
ghost use Rattle.pfc_store.specs.Views.{store_view, values_view};
ghost use Rattle.pfc_pending.specs.Selects.{offer_view};
ghost use Rattle.pfc_activities.specs.declared.activities.Doing.{Doing};
ghost use Rattle.pfc_activities.specs.Relation.{MayAct};
ghost use Rattle.pfc_activities.specs.Views.{hand_view};
ghost use Rattle.pfc_meeting.specs.Meeting.{side_held};
ghost use Rattle.pfc_events.specs.Held.{beside_in};
ghost use Rattle.pfc_events.specs.Sides.{AreCalled, AreWritten, between, written_in};

use crate::partners::{is_accepting, partner_of};
use crate::places::{message_write, parameter_writes};
use pfc_activating::passed;
use pfc_activities::{Activity, Hand, State};
use pfc_base::Memory;
use pfc_hb::Access;
use pfc_meeting::{arm_of, met_at, object_at};
use pfc_pending::{Argument, Offer};
use pfc_store::{Display, Spot, Store, Value};
use pfc_world::Arm;
use std::alloc::Global;

/// What the alternative of a partner has written by its side, over the arguments of its caller. Its only refusal is want of memory.
fn written_beside<'t>(
    alloc: Global,
    store: &Store,
    display: &Display,
    offer: &Offer<'t>,
    args: &[Value],
) -> Result<Vec<Access>, Memory>
    ensures { IfOk result (λ accesses. accesses.items ≡ beside_in (store_view store.now) display.now (values_view args.now) (offer_view offer.now)) }
{
    match offer {
        Offer::Receive(_, target) => message_write(alloc, store, display, target),
        Offer::Accept(a) => parameter_writes(alloc, display.frame_of(a.scope), args),
        Offer::Send(_, _) => Ok(Vec::new(alloc)),
        Offer::Wait(_) => Ok(Vec::new(alloc)),
        Offer::End => Ok(Vec::new(alloc)),
    }
}

/// The same of the first alternative of a process that is open to this. It is refused where memory is, and where a number is past 2^32.
fn side_writes<'t>(
    alloc: Global,
    store: &Store,
    activity: &Activity<'t>,
    arm: Arm,
    args: &[Value],
) -> Result<Vec<Access>, Memory>
    ensures { IfOk result (λ accesses. (t : Tables) → accesses.items ≡ written_in (store_view store.now) activity.now.display (values_view args.now)
        (side_held t (store_view store.now) activity.now arm)) }
{
    let Some(met) = met_at(store, activity, arm)? else {
        return Ok(Vec::new(alloc));
    };
    written_beside(alloc, store, &activity.display, &met.offered.offer, args)
}

/// The arguments that a caller shows, none where it shows no such thing.
fn asked_by<'o, 't>(hand: &'o Hand<'t>) -> &'o [Value]
    ensures { (t : Tables) (d : Doing) → values_view result.now ≡ asked (hand_view t d hand.now) }
{
    match hand {
        Hand::Asking(args) => args,
        Hand::Empty => &[],
        Hand::Offering(_) => &[],
        Hand::Barred(_) => &[],
    }
}

/// What a process writes in its communication with its partner, by this offer of its own. It is refused where memory is, and where a number
/// is past 2^32.
fn writes_between<'t>(
    alloc: Global,
    store: &Store,
    own: &Activity<'t>,
    partner: &Activity<'t>,
    offer: &Offer<'t>,
    arm: Arm,
) -> Result<Vec<Access>, Memory>
    ensures { IfOk result (λ accesses. (t : Tables) → accesses.items ≡ between t (store_view store.now) own.now partner.now (offer_view offer.now) arm) }
{
    match offer {
        Offer::Send(_, _) => match arm {
            Arm::Send(channel) => side_writes(alloc, store, partner, Arm::Receive(channel), &[]),
            Arm::Receive(_) => Ok(Vec::new(alloc)),
            Arm::Accept(_) => Ok(Vec::new(alloc)),
        },
        Offer::Receive(_, target) => message_write(alloc, store, &own.display, target),
        Offer::Accept(a) => {
            let args = asked_by(&partner.hand);
            parameter_writes(alloc, own.display.frame_of(a.scope), args)
        }
        Offer::Wait(_) => Ok(Vec::new(alloc)),
        Offer::End => Ok(Vec::new(alloc)),
    }
}

/// What a process writes with its first partner by this offer, nothing where it has none. It is refused where memory is, and where a number
/// is past 2^32 or a partner is no process, which never come in a run.
pub(crate) fn offer_writes<'t>(
    alloc: Global,
    state: &State<'t>,
    p: u32,
    offer: &Offer<'t>,
) -> Result<Vec<Access>, Memory>
    requires { MayAct state.now p }
    ensures { IfOk result (λ accesses. AreWritten state.now p offer.now accesses.items) }
{
    let own = &state.activities[p as usize];
    let Some(arm) = arm_of(&state.store, &own.display, offer)? else {
        return Ok(Vec::new(alloc));
    };
    let Some(q) = partner_of(&state.world, p, arm) else {
        return Ok(Vec::new(alloc));
    };
    if q as usize >= state.activities.len() {
        return Err(Memory);
    }
    let partner = &state.activities[q as usize];
    writes_between(alloc, &state.store, own, partner, offer, arm)
}

/// What a call of an entry of the process that a spot names writes: the parameters of the accept at which that process waits, nothing where
/// it waits at none. It is refused where memory is, and where a number is past 2^32 or the process is none, which never come in a run.
pub(crate) fn call_writes<'t>(
    alloc: Global,
    state: &State<'t>,
    p: u32,
    spot: &Spot,
    entry: u32,
    args: &[Argument],
) -> Result<Vec<Access>, Memory>
    requires { MayAct state.now p }
    ensures { IfOk result (λ accesses. AreCalled state.now p spot.now entry args.now accesses.items) }
{
    let own = &state.activities[p as usize];
    let q = object_at(&state.store, &own.display, spot)?;
    if !is_accepting(&state.world, q, entry) {
        return Ok(Vec::new(alloc));
    }
    if q as usize >= state.activities.len() {
        return Err(Memory);
    }
    let values = passed(alloc, &state.store, &own.display, args)?;
    let owner = &state.activities[q as usize];
    side_writes(alloc, &state.store, owner, Arm::Accept(entry), &values)
}
