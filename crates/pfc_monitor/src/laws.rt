//! Laws of monitors: each is the contract of a call that does nothing.
ghost use Rattle.std.specs.Prelude.{◌≡◌, ◌<◌, ℕ, ℤ, None, Some, List, length};
ghost use Rattle.pfc_state.specs.declared.waits.Why.{Why};
ghost use Rattle.pfc_state.specs.Stands.{Stand, ticket_at};
ghost use Rattle.pfc_world.specs.Firsts.{IsFirst, IsLast, IsNobody};
ghost use Rattle.pfc_world.specs.Holders.{Held};
ghost use Rattle.pfc_world.specs.Monitors.{delayed, entered, handed_over, resumed};
ghost use Rattle.pfc_world.specs.Partners.{next_holder};
ghost use Rattle.pfc_world.specs.Tickets.{AreApart};
ghost use Rattle.pfc_monitor.specs.Orderly.{AreOrderly};

/// A monitor has one holder or none, by what a holder is; and it is free only where no resumer and no entrant waits for
/// it: each action on a monitor keeps this of all of them.
pub fn a_free_monitor_is_wanted_by_nobody()
    ensures enter { (h : Held) (p m : ℕ) → m < length h.holders → AreOrderly h → AreOrderly (entered h p m) }
    ensures leave { (h : Held) (m : ℕ) → m < length h.holders → AreOrderly h → AreOrderly (handed_over h m) }
    ensures delay { (h : Held) (p m c : ℕ) (rank : ℤ) → m < length h.holders → AreOrderly h → AreOrderly (delayed h p m c rank) }
    ensures resume { (h : Held) (p m c : ℕ) → m < length h.holders → AreOrderly h → AreOrderly (resumed h p m c) }
{}

/// A monitor that is handed over goes to the latest resumer, whoever waits to enter; without one, to the first entrant;
/// and else to nobody.
pub fn the_latest_resumer_comes_before_any_entrant()
    ensures resumer { (rows : List Stand) (m q : ℕ) → AreApart rows → IsLast (ticket_at (Why.Resumer m)) rows q → next_holder rows m ≡ Some q }
    ensures entrant { (rows : List Stand) (m q : ℕ) → AreApart rows → IsNobody (ticket_at (Why.Resumer m)) rows →
        IsFirst (ticket_at (Why.Enter m)) rows q → next_holder rows m ≡ Some q }
    ensures nobody { (rows : List Stand) (m : ℕ) → IsNobody (ticket_at (Why.Resumer m)) rows →
        IsNobody (ticket_at (Why.Enter m)) rows → next_holder rows m ≡ None }
{}
