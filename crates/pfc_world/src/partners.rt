//! Who waits to communicate.
ghost use Rattle.std.specs.Prelude.{◌≡◌, ◌<◌, length, IfSome};
ghost use Rattle.pfc_state.specs.Stands.{IsWaiting, ticket_of};
ghost use Rattle.pfc_world.specs.Partners.{plain_wait};
ghost use Rattle.pfc_world.specs.Partnering.{earlier_of, first_open_to, is_earlier, met_in_a_select, met_in_a_statement};
ghost use Rattle.pfc_world.specs.Tables.{at};

use crate::{Arm, Offer, Why, World};

/// A process that waits to communicate: its number, and the place, from 0, of the first of its alternatives at which it
/// is met, where it waits in a select; None where it waits in a plain statement.
#[derive(Clone, Copy, Debug, PartialEq, Eq)]
pub struct Partner {
    pub process: u32,
    pub alternative: Option<u32>,
}

impl World {
    /// The process of least ticket among those that wait to do this, in a plain statement or in a select.
    pub fn first_open_to(&self, arm: Arm) -> Option<Partner>
        ensures partner { result ≡ first_open_to arm self.now.rows }
        ensures waits { IfSome result (λ partner. IsWaiting (at self.now.rows partner.process)) }
        ensures within { IfSome result (λ partner. partner.process < length self.now.rows) }
    {
        // this also tells that no two tickets are equal
        let _done = self.done();
        let waiter = self.first_at(wait_in_a_statement(arm));
        match (waiter, self.first_offer(arm)) {
            (Some(p), Some(offer)) => Some(self.earlier(p, offer)),
            (Some(p), None) => Some(in_a_statement(p)),
            (None, Some(offer)) => Some(in_a_select(offer)),
            (None, None) => None,
        }
    }

    /// Of a process in a plain statement and one in a select, the one that has waited longer.
    fn earlier(&self, p: u32, offer: Offer) -> Partner
        requires p { p < length self.now.rows }
        requires offer { offer.process < length self.now.rows }
        ensures { result ≡ earlier_of self.now.rows p offer }
    {
        if self.is_before(p, offer.process) {
            in_a_statement(p)
        } else {
            in_a_select(offer)
        }
    }

    /// Whether one process that waits has waited longer than another.
    fn is_before(&self, p: u32, q: u32) -> bool
        requires p { p < length self.now.rows }
        requires q { q < length self.now.rows }
        ensures { result ≡ is_earlier (ticket_of (at self.now.rows p)) (ticket_of (at self.now.rows q)) }
    {
        match (self.ticket(p), self.ticket(q)) {
            (Some(since), Some(later)) => since < later,
            _ => false,
        }
    }
}

/// The wait of a plain statement that does what the alternative does.
fn wait_in_a_statement(arm: Arm) -> Why
    ensures { result ≡ plain_wait arm }
{
    match arm {
        Arm::Send(c) => Why::Send(c),
        Arm::Receive(c) => Why::Receive(c),
        Arm::Accept(e) => Why::Accept(e),
    }
}

fn in_a_statement(process: u32) -> Partner
    ensures { result ≡ met_in_a_statement process }
{
    Partner {
        process,
        alternative: None,
    }
}

fn in_a_select(offer: Offer) -> Partner
    ensures { result ≡ met_in_a_select offer }
{
    Partner {
        process: offer.process,
        alternative: Some(offer.arm),
    }
}
