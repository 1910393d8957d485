//! Laws of the table: each is the contract of a call that does nothing.
ghost use Rattle.std.specs.Prelude.{◌≡◌, ◌⊎◌, ℕ, true, None, Some, Option, List, []};
ghost use Rattle.pfc_state.specs.declared.waits.Arm.{Arm};
ghost use Rattle.pfc_state.specs.declared.waits.Why.{Why};
ghost use Rattle.pfc_state.specs.Stands.{Stand, Is_created, Is_ready, ticket_at, ticket_offering, ticket_barred};
ghost use Rattle.pfc_world.specs.Firsts.{first, last, IsFirst, IsLast, IsNobody, GivesTickets};
ghost use Rattle.pfc_world.specs.Settling.{settled, IsAtRest};
ghost use Rattle.pfc_world.specs.Tables.{Table, at, some_ready};
ghost use Rattle.pfc_world.specs.Tickets.{AreApart};
ghost use Rattle.pfc_world.specs.Transitions.{KeepsWaits, begun, rested, placed, blocked, ended, finished, all_started, ticked};

/// Who waits before and after a transition has the same wait: its cause, its ticket and its
/// alternatives are never changed while it lasts.
pub fn waits_are_kept()
    ensures begin { (w : Table) (p : ℕ) → KeepsWaits w (begun w p) }
    ensures rest { (w : Table) → KeepsWaits w (rested w) }
    ensures block { (w : Table) (p : ℕ) (why : Why) (arms : List Arm) → at w.rows p ≡ Is_ready → KeepsWaits w (blocked w p why arms) }
    ensures wake { (w : Table) (p : ℕ) → KeepsWaits w (placed w p Is_ready) }
    ensures finish { (w : Table) (p : ℕ) → KeepsWaits w (finished w p) }
    ensures end_select { (w : Table) (p : ℕ) → KeepsWaits w (ended w p) }
    ensures create { (w : Table) (p : ℕ) → KeepsWaits w (placed w p Is_created) }
    ensures coend { (w : Table) (p : ℕ) → at w.rows p ≡ Is_ready → KeepsWaits w (blocked (all_started w) p Why.Coend []) }
    ensures tick { (w : Table) → KeepsWaits w (ticked w) }
    ensures settle { (w : Table) → KeepsWaits w (settled w) }
{}

/// Tickets are apart, so at a wait, at an alternative and at a resource there is at most one process of
/// least ticket and one of greatest, which are the first and the last; without any, there is no first.
pub fn first_is_the_least()
    ensures wait { (why : Why) → GivesTickets (ticket_at why) }
    ensures alternative { (arm : Arm) → GivesTickets (ticket_offering arm) }
    ensures resource { (g : ℕ) (after : Option ℕ) → GivesTickets (ticket_barred g after) }
    ensures first { (key : Stand → Option ℕ) (rows : List Stand) (p : ℕ) → GivesTickets key → AreApart rows → IsFirst key rows p
        → first key rows ≡ Some p }
    ensures last { (key : Stand → Option ℕ) (rows : List Stand) (p : ℕ) → GivesTickets key → AreApart rows → IsLast key rows p
        → last key rows ≡ Some p }
    ensures alone { (key : Stand → Option ℕ) (rows : List Stand) (p q : ℕ) → GivesTickets key → AreApart rows →
        IsFirst key rows p → IsFirst key rows q → p ≡ q }
    ensures nobody { (key : Stand → Option ℕ) (rows : List Stand) → IsNobody key rows → first key rows ≡ None }
{}

/// Settling leaves somebody ready, or nobody ready and no due moment pending; and to settle again
/// changes nothing.
pub fn settling_is_done_once()
    ensures left { (w : Table) → (some_ready (settled w).rows ≡ true) ⊎ IsAtRest (settled w).rows }
    ensures again { (w : Table) → settled (settled w) ≡ settled w }
{}
