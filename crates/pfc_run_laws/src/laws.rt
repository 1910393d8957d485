//! The laws.
ghost use Rattle.pfc_sched.specs.Picks.{Picking};
ghost use Rattle.pfc_semantics.specs.Configurations.{Config};
ghost use Rattle.pfc_semantics.specs.Programs.{Program};
ghost use Rattle.pfc_semantics.specs.Runs.{run_from};
ghost use Rattle.pfc_run_laws.specs.Outputs.{Extends};
ghost use Rattle.std.specs.Prelude.{ℕ};

/// What was written stays: at the end of a run the output begins with what it was before.
pub fn output_only_grows()
    ensures { (g : Program) (limit left : ℕ) (picking : Picking) (c : Config) → Extends c.output (run_from g limit left picking c).config.output }
{}
