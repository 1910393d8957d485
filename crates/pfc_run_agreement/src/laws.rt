//! The laws.
ghost use Rattle.std.specs.Prelude.{ℕ, List, Option};
ghost use Rattle.pfc_code.specs.Images.{PlainImage};
ghost use Rattle.pfc_machines.specs.declared.machine.Machine.{Machine};
ghost use Rattle.pfc_sched.specs.Picks.{Picking};
ghost use Rattle.pfc_state.specs.declared.endings.Ending.{Ending};
ghost use Rattle.pfc_semantics.specs.Configurations.{Config};
ghost use Rattle.pfc_semantics.specs.Programs.{Program};
ghost use Rattle.pfc_semantics.specs.Runs as source;
ghost use Rattle.pfc_sessions.specs.Courses.{IsCourse};
ghost use Rattle.pfc_sessions.specs.Runs.{MayRun, run_from};
ghost use Rattle.pfc_sessions.specs.Stages.{first_stage};
ghost use Rattle.pfc_run_agreement.specs.Agreement.{Agree, AreRunsAlike};
ghost use Rattle.pfc_run_agreement.specs.Courses.{IsSourceCourse};

/// Where the machine and the configuration agree for so many actions, who is picked may act in each of them, and both runs are the same.
pub fn runs_agree()
    ensures may { (image : PlainImage) (g : Program) (left : ℕ) (picking : Picking) (m : Machine) (c : Config)
        → Agree image g left picking m c → MayRun image left picking m }
    ensures same { (image : PlainImage) (g : Program) (limit left : ℕ) (picking : Picking) (m : Machine) (c : Config)
        → Agree image g left picking m c → AreRunsAlike (run_from image limit left picking m) (source.run_from g limit left picking c) c }
{}

/// What a session's run comes to is then what the source text's own run comes to.
pub fn sessions_run_the_source()
    ensures { (image : PlainImage) (g : Program) (limit : ℕ) (picking : Picking) (m new : Machine) (c : Config) (ending : Ending)
        (before after : Option (List ℕ))
        → Agree image g limit picking m c
        → IsCourse image limit (run_from image limit limit picking m) (first_stage picking m) new ending before after
        → IsSourceCourse (source.run_from g limit limit picking c) c new ending before after }
{}
