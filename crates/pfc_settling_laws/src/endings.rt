//! The laws of endings. The functions do nothing: their contracts are the laws.
ghost use Rattle.std.specs.Prelude.{◌≡◌, None};
ghost use Rattle.pfc_sched.specs.Picks.{Picking, picked, after_pick};
ghost use Rattle.pfc_semantics.specs.Configurations.{Config};
ghost use Rattle.pfc_semantics.specs.Runs.{ending_at, standings};
ghost use Rattle.pfc_machines.specs.declared.machine.Machine.{Machine};
ghost use Rattle.pfc_representation.specs.Levels.{Facts};
ghost use Rattle.pfc_representation.specs.Machines.{Represents, Agrees, Reports, ends_inside};
ghost use Rattle.pfc_settling_laws.specs.Endings.{machine_ending, machine_standings};

/// A machine that agrees with a configuration, on the way or at the end of a run, has the same to report.
pub fn agreeing_machines_report()
    ensures { (facts : Facts) (m : Machine) (c : Config) → Agrees facts m c → Reports facts m c }
{}

/// A machine that agrees with a configuration represents it, unless the run is at its end.
pub fn what_goes_on_is_represented()
    ensures { (facts : Facts) (m : Machine) (c : Config) → Agrees facts m c → ending_at c ≡ None → Represents facts m c }
{}

/// Where both have the same to report, and the last action was no fault, the run is at its end on both sides or on neither, and in the same way: main has
/// finished, or no process is ready. The standings with their lines are the same, and whether the output ends inside a line.
pub fn runs_end_alike()
    ensures ending { (facts : Facts) (m : Machine) (c : Config) → Reports facts m c → c.fault ≡ None → machine_ending m ≡ ending_at c }
    ensures standings { (facts : Facts) (m : Machine) (c : Config) → Reports facts m c → machine_standings m ≡ standings c }
    ensures line { (facts : Facts) (m : Machine) (c : Config) → Reports facts m c → m.in_line ≡ ends_inside c.output }
{}

/// Where both have the same to report, whoever picks picks the same process, or finds nobody, and goes on in the same way.
pub fn picks_are_the_same()
    ensures pick { (facts : Facts) (m : Machine) (c : Config) (picking : Picking) → Reports facts m c
        → picked picking m.world.rows ≡ picked picking c.table.rows }
    ensures after { (facts : Facts) (m : Machine) (c : Config) (picking : Picking) → Reports facts m c
        → after_pick picking m.world.rows ≡ after_pick picking c.table.rows }
{}
