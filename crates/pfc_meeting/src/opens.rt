//! What is open, by the store and the display of its process.
ghost use Rattle.std.specs.Prelude.{◌≡◌, IfOk, option_map};
ghost use Rattle.pfc_store.specs.Views.{store_view, spot_view};
ghost use Rattle.pfc_pending.specs.Selects.{offer_view, open_view, opens_view};
ghost use Rattle.pfc_semantics.specs.Channels.{is_arm};
ghost use Rattle.pfc_meeting.specs.Opens.{number_in, arm_in, arms_in, first_met};

use pfc_base::Memory;
use pfc_pending::{Offer, Open};
use pfc_store::{Display, Spot, Store};
use pfc_world::Arm;
use std::alloc::Global;

/// The number of the object that a spot names. It is refused past 2^32, which never comes in a run.
pub fn object_at(store: &Store, display: &Display, spot: &Spot) -> Result<u32, Memory>
    ensures { IfOk result (λ n. n ≡ number_in (store_view store.now) display.now (spot_view spot.now)) }
{
    let n = store.ordinal_in(display, spot).unsigned_abs();
    if n > 4_294_967_295 {
        return Err(Memory);
    }
    Ok(n as u32)
}

/// An offer as the table has it; none for one that does not communicate. It is refused where a number is past 2^32.
pub fn arm_of(store: &Store, display: &Display, offer: &Offer) -> Result<Option<Arm>, Memory>
    ensures { IfOk result (λ arm. arm ≡ arm_in (store_view store.now) display.now (offer_view offer.now)) }
{
    match offer {
        Offer::Send(channel, _) => Ok(Some(Arm::Send(object_at(store, display, channel)?))),
        Offer::Receive(channel, _) => Ok(Some(Arm::Receive(object_at(store, display, channel)?))),
        Offer::Accept(accepting) => Ok(Some(Arm::Accept(accepting.entry))),
        Offer::Wait(_) => Ok(None),
        Offer::End => Ok(None),
    }
}

/// Whether an offer is open to this. It is refused where a number is past 2^32.
fn is_open_to(store: &Store, display: &Display, arm: Arm, offer: &Offer) -> Result<bool, Memory>
    ensures { IfOk result (λ is_open. is_open ≡ is_arm arm (arm_in (store_view store.now) display.now (offer_view offer.now))) }
{
    match arm_of(store, display, offer)? {
        Some(other) => Ok(other.is_same(arm)),
        None => Ok(false),
    }
}

/// The first of these alternatives that is open to this. It is refused where a number is past 2^32.
#[tactic(auto, using(crate::proofs::Walking::met_step, crate::proofs::Walking::met_end))]
pub fn first_open<'o, 't>(
    store: &Store,
    display: &Display,
    arm: Arm,
    opens: &'o [Open<'t>],
) -> Result<Option<&'o Open<'t>>, Memory>
    ensures { IfOk result (λ found. option_map (λ o. open_view o.now) found ≡ first_met (store_view store.now) display.now arm (opens_view opens.now)) }
{
    for open in opens {
        if is_open_to(store, display, arm, &open.offer)? {
            return Ok(Some(open));
        }
    }
    Ok(None)
}

/// The alternatives that communicate, as the table has them. It is refused where a number is past 2^32.
#[tactic(auto, using(crate::proofs::Walking::arms_step, crate::proofs::Walking::arms_end))]
pub fn arms_of_all(
    alloc: Global,
    store: &Store,
    display: &Display,
    opens: &[Open],
) -> Result<Vec<Arm>, Memory>
    ensures { IfOk result (λ arms. arms.items ≡ arms_in (store_view store.now) display.now (opens_view opens.now)) }
{
    let mut arms = Vec::new(alloc);
    for open in opens {
        if let Some(arm) = arm_of(store, display, &open.offer)? {
            arms.push(arm)?;
        }
    }
    Ok(arms)
}
