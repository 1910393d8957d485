//! Laws of resources: each is the contract of a call that does nothing.
ghost use Rattle.std.specs.Prelude.{◌≡◌, ◌<◌, ℕ, None, Some, Option, List, length};
ghost use Rattle.pfc_state.specs.Stands.{Stand, ticket_barred};
ghost use Rattle.pfc_world.specs.Firsts.{IsFirst, IsNobody};
ghost use Rattle.pfc_world.specs.Holders.{Held};
ghost use Rattle.pfc_world.specs.Partners.{next_barred};
ghost use Rattle.pfc_world.specs.Resources.{barred, given_up, passed_to, requeued, resource_entered};
ghost use Rattle.pfc_world.specs.Tickets.{AreApart};
ghost use Rattle.pfc_resource.specs.Orderly.{AreOrderly};

/// A resource has one holder or none, by what a holder is; and it is free only where no entrant waits for it: each action
/// on a resource keeps this of all of them.
pub fn a_free_resource_is_wanted_by_nobody()
    ensures enter { (h : Held) (p g : ℕ) → g < length h.holders → AreOrderly h → AreOrderly (resource_entered h p g) }
    ensures leave { (h : Held) (g : ℕ) → g < length h.holders → AreOrderly h → AreOrderly (given_up h g) }
    ensures bar { (h : Held) (p g procedure : ℕ) → g < length h.holders → AreOrderly h → AreOrderly (barred h p g procedure) }
    ensures pass { (h : Held) (g q : ℕ) → g < length h.holders → AreOrderly h → AreOrderly (passed_to h g q) }
    ensures requeue { (h : Held) (p g procedure q : ℕ) → g < length h.holders → AreOrderly h → AreOrderly (requeued h p g procedure q) }
{}

/// Who is barred is tried in the order of tickets: the next is the one of least ticket above that of the turn before, so
/// the tickets of a scan's turns rise, and nobody whose ticket lies between two turns is passed over.
pub fn barred_processes_are_tried_in_the_order_of_tickets()
    ensures next { (rows : List Stand) (g q : ℕ) (after : Option ℕ) → AreApart rows →
        IsFirst (ticket_barred g after) rows q → next_barred rows g after ≡ Some q }
    ensures none { (rows : List Stand) (g : ℕ) (after : Option ℕ) → IsNobody (ticket_barred g after) rows → next_barred rows g after ≡ None }
    ensures rises { (g t u : ℕ) (stand : Stand) → ticket_barred g (Some t) stand ≡ Some u → t < u }
{}
