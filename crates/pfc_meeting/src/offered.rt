//! What a select looks for among its open alternatives.
ghost use Rattle.std.specs.Prelude.{◌≡◌, slice_get, option_map};
ghost use Rattle.pfc_semantics.specs.Channels.{is_communication, communications};
ghost use Rattle.pfc_semantics.specs.Selects.{is_end, timeout_at, open_timeout as timeout_among, may_terminate_at};
ghost use Rattle.pfc_pending.specs.Selects.{offer_view, open_view, opens_view};
ghost use Rattle.pfc_meeting.specs.Delays.{delay_view};

use pfc_pending::{Offer, Open};

/// An open `timeout`, with its seconds.
#[derive(Clone, Copy)]
pub struct Delay<'o, 't> {
    pub seconds: u64,
    pub at: &'o Open<'t>,
}

/// Whether an offer communicates.
fn communicates(offer: &Offer) -> bool
    ensures { result ≡ is_communication (offer_view offer.now) }
{
    match offer {
        Offer::Send(_, _) => true,
        Offer::Receive(_, _) => true,
        Offer::Accept(_) => true,
        Offer::Wait(_) => false,
        Offer::End => false,
    }
}

/// The alternative of this place, from 0, among those that communicate.
#[tactic(auto, using(crate::proofs::Walking::communication_step, crate::proofs::Walking::communication_end, crate::proofs::Walking::get_first, crate::proofs::Walking::get_behind))]
pub fn communication_at<'o, 't>(opens: &'o [Open<'t>], place: u32) -> Option<&'o Open<'t>>
    ensures { option_map (λ o. open_view o.now) result ≡ slice_get (communications (opens_view opens.now)) place }
{
    let mut left = place;
    for open in opens {
        if communicates(&open.offer) {
            if left == 0 {
                return Some(open);
            }
            left -= 1;
        }
    }
    None
}

/// The `timeout` that an open alternative is.
fn delay_of<'o, 't>(offered: &'o Open<'t>) -> Option<Delay<'o, 't>>
    ensures { option_map delay_view result ≡ timeout_at (open_view offered.now) (offer_view offered.now.offer) }
{
    match offered.offer {
        Offer::Send(_, _) => None,
        Offer::Receive(_, _) => None,
        Offer::Accept(_) => None,
        Offer::Wait(n) => Some(Delay {
            seconds: n.unsigned_abs(),
            at: offered,
        }),
        Offer::End => None,
    }
}

/// The first open `timeout`.
#[tactic(auto, using(crate::proofs::Walking::timeout_step, crate::proofs::Walking::timeout_end))]
pub fn first_delay<'o, 't>(opens: &'o [Open<'t>]) -> Option<Delay<'o, 't>>
    ensures { option_map delay_view result ≡ timeout_among (opens_view opens.now) }
{
    for open in opens {
        if let Some(delay) = delay_of(open) {
            return Some(delay);
        }
    }
    None
}

/// Whether an offer is to terminate.
fn terminates(offer: &Offer) -> bool
    ensures { result ≡ is_end (offer_view offer.now) }
{
    match offer {
        Offer::Send(_, _) => false,
        Offer::Receive(_, _) => false,
        Offer::Accept(_) => false,
        Offer::Wait(_) => false,
        Offer::End => true,
    }
}

/// Whether an alternative is open that terminates.
#[tactic(auto, using(crate::proofs::Walking::end_step, crate::proofs::Walking::end_none))]
pub fn may_terminate(opens: &[Open]) -> bool
    ensures { result ≡ may_terminate_at (opens_view opens.now) }
{
    for open in opens {
        if terminates(&open.offer) {
            return true;
        }
    }
    false
}
