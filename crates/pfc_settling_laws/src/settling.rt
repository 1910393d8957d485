//! The laws of settling. The functions do nothing: their contracts are the laws.
ghost use Rattle.std.specs.Prelude.{◌≡◌, ℕ, None};
ghost use Rattle.pfc_world.specs.Tables.{Table};
ghost use Rattle.pfc_world.specs.Terminating.{wholly_settled};
ghost use Rattle.pfc_semantics.specs.Configurations.{Config};
ghost use Rattle.pfc_semantics.specs.Time.{settled_config};
ghost use Rattle.pfc_machines.specs.declared.machine.Machine.{Machine};
ghost use Rattle.pfc_machine_acts.specs.Settling.{machine_settled};
ghost use Rattle.pfc_representation.specs.Levels.{Facts};
ghost use Rattle.pfc_representation.specs.Machines.{Represents, Agrees};

/// How many alternatives a process may offer has no part in settling.
pub fn room_has_no_part_in_settling()
    ensures { (w : Table) (room : ℕ) → wholly_settled (record w { room = room }) ≡ record (wholly_settled w) { room = room } }
{}

/// A machine that represents a configuration may be settled, since nobody acts, and represents the settled configuration then: whoever is due is ready and
/// shows what it showed; children that serve have finished, where nothing else can happen any more, and main is ready where it waited for them. At the end
/// of a run the settled machine agrees with the settled configuration as well.
pub fn settling_keeps_the_representation()
    ensures acting { (facts : Facts) (m : Machine) (c : Config) → Represents facts m c → m.world.acting ≡ None }
    ensures represents { (facts : Facts) (m : Machine) (c : Config) → Represents facts m c → Represents facts (machine_settled m) (settled_config c) }
    ensures agrees { (facts : Facts) (m : Machine) (c : Config) → Agrees facts m c → Agrees facts (machine_settled m) (settled_config c) }
{}
