//! The laws. The functions do nothing: their contracts are the laws.
ghost use Rattle.std.specs.Prelude.{ℕ, List, Option};
ghost use Rattle.pfc_sched.specs.Picks.{Picking};
ghost use Rattle.pfc_state.specs.declared.endings.Ending.{Ending};
ghost use Rattle.pfc_semantics.specs.Configurations.{Config, start};
ghost use Rattle.pfc_semantics.specs.Runs as source;
ghost use Rattle.pfc_translation.specs.Images.{image_of};
ghost use Rattle.pfc_machines.specs.declared.machine.Machine.{Machine};
ghost use Rattle.pfc_representation.specs.Levels.{Facts, program_in};
ghost use Rattle.pfc_representation.specs.Machines.{Represents};
ghost use Rattle.pfc_arrivals.specs.Arrivals.{AreNumbered};
ghost use Rattle.pfc_sessions.specs.Courses.{IsCourse};
ghost use Rattle.pfc_sessions.specs.Runs.{run_from};
ghost use Rattle.pfc_sessions.specs.Stages.{first_stage};
ghost use Rattle.pfc_run_agreement.specs.Agreement.{Agree, AreRunsAlike};
ghost use Rattle.pfc_run_agreement.specs.Courses.{IsSourceCourse};
ghost use Rattle.pfc_simulation.specs.Reached.{RunKeepsToRules, IsRunKept};

/// Where every action of the run is kept, and it keeps to the rules, a machine that represents a configuration agrees with the source text for any number of
/// actions.
pub fn agreeing_machines_go_on_agreeing()
    ensures { (facts : Facts) (left : ℕ) (picking : Picking) (m : Machine) (c : Config)
        → IsRunKept facts c → AreNumbered facts → RunKeepsToRules (program_in facts) c → Represents facts m c
        → Agree (image_of facts.tree) (program_in facts) left picking m c }
{}

/// The whole run of a machine that represents the start of a program is the run of the source text.
pub fn machines_run_their_source()
    ensures { (facts : Facts) (input : List ℕ) (seed limit : ℕ) (picking : Picking) (m : Machine)
        → IsRunKept facts (start (program_in facts) input seed) → AreNumbered facts
        → RunKeepsToRules (program_in facts) (start (program_in facts) input seed)
        → Represents facts m (start (program_in facts) input seed)
        → AreRunsAlike (run_from (image_of facts.tree) limit limit picking m) (source.run facts.tree input seed picking limit)
        (start (program_in facts) input seed) }
{}

/// What a session comes to that runs such a machine is the run of the source text.
pub fn sessions_run_their_source()
    ensures { (facts : Facts) (input : List ℕ) (seed limit : ℕ) (picking : Picking) (m new : Machine) (ending : Ending) (before after : Option (List ℕ))
        → IsRunKept facts (start (program_in facts) input seed) → AreNumbered facts
        → RunKeepsToRules (program_in facts) (start (program_in facts) input seed)
        → Represents facts m (start (program_in facts) input seed)
        → IsCourse (image_of facts.tree) limit (run_from (image_of facts.tree) limit limit picking m) (first_stage picking m) new ending before after
        → IsSourceCourse (source.run facts.tree input seed picking limit) (start (program_in facts) input seed) new ending before after }
{}
