//! Laws of semaphores: each is the contract of a call that does nothing.
ghost use Rattle.std.specs.Prelude.{◌≡◌, ◌≢◌, ℕ, Some};
ghost use Rattle.pfc_state.specs.declared.waits.Why.{Why};
ghost use Rattle.pfc_state.specs.Stands.{Is_ready, ticket_at};
ghost use Rattle.pfc_world.specs.Firsts.{IsFirst};
ghost use Rattle.pfc_world.specs.Partners.{semaphore_waiter};
ghost use Rattle.pfc_world.specs.Semaphores.{Counted, counted, signalled};
ghost use Rattle.pfc_world.specs.Tables.{at};
ghost use Rattle.pfc_world.specs.Tickets.{AreApart};
ghost use Rattle.pfc_world.specs.Transitions.{placed};

/// A signal frees the process of least ticket among those that wait at the semaphore, and leaves the count; and it
/// changes no other standing.
pub fn a_signal_frees_the_first_alone()
    ensures first { (c : Counted) (s q : ℕ) → AreApart c.table.rows → IsFirst (ticket_at (Why.Semaphore s)) c.table.rows q →
        signalled c s ≡ counted (placed c.table q Is_ready) c.counts }
    ensures alone { (c : Counted) (s q k : ℕ) → semaphore_waiter c.table.rows s ≡ Some q → k ≢ q → at (signalled c s).table.rows k ≡ at c.table.rows k }
{}
