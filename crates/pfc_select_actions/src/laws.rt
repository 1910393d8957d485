//! A law of partners: the contract of a call that does nothing.
ghost use Rattle.std.specs.Prelude.{◌≡◌, ℕ, true, is_some};
ghost use Rattle.pfc_state.specs.declared.waits.Arm.{Arm};
ghost use Rattle.pfc_world.specs.Partners.{ticket_open_to};
ghost use Rattle.pfc_world.specs.Tables.{at};
ghost use Rattle.pfc_machines.specs.declared.machine.Machine.{Machine};
ghost use Rattle.pfc_machines.specs.Partners.{open_to};
ghost use Rattle.pfc_select_actions.specs.Agreements.{Agrees};

/// Where a process offers what it waits for by the table, it offers an alternative to each partner for which the table finds it open. So no
/// message and no meeting is lost between the two.
pub fn who_is_open_offers()
    ensures { (m : Machine) (q : ℕ) (arm : Arm) → Agrees m q → is_some (ticket_open_to arm (at m.world.rows q)) ≡ true → is_some (open_to m q arm) ≡ true }
{}
