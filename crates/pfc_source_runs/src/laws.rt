//! The law. The function does nothing: its contract is the law.
ghost use Rattle.std.specs.Prelude.{◌≡◌, ◌≤◌, ℕ, List, length, Option, None};
ghost use Rattle.pfc_tree.specs.trees.Parts.{ProgramTree};
ghost use Rattle.pfc_tree.specs.forget.Parts.{forget_program};
ghost use Rattle.pfc_tree.specs.Grammar.{IsSmall};
ghost use Rattle.pfc_tree.specs.lawful.Parts.{IsLawful};
ghost use Rattle.pfc_types.specs.rules.Whole.{first_fault};
ghost use Rattle.pfc_sched.specs.Picks.{Picking};
ghost use Rattle.pfc_state.specs.declared.endings.Ending.{Ending};
ghost use Rattle.pfc_run_invariants.specs.Inputs.{AreBytes};
ghost use Rattle.pfc_number_laws.specs.Written.{FitsTree};
ghost use Rattle.pfc_semantics.specs.Configurations.{start};
ghost use Rattle.pfc_semantics.specs.Programs.{program_of};
ghost use Rattle.pfc_semantics.specs.Runs as source;
ghost use Rattle.pfc_translation.specs.Images.{image_of};
ghost use Rattle.pfc_machines.specs.Machines.{CanStart, start_machine};
ghost use Rattle.pfc_machines.specs.declared.machine.Machine.{Machine};
ghost use Rattle.pfc_represented_start.specs.Starts.{start_facts};
ghost use Rattle.pfc_sessions.specs.Courses.{IsCourse};
ghost use Rattle.pfc_sessions.specs.Runs.{MayRun, run_from};
ghost use Rattle.pfc_sessions.specs.Stages.{first_stage};
ghost use Rattle.pfc_run_agreement.specs.Agreement.{AreRunsAlike};
ghost use Rattle.pfc_run_agreement.specs.Courses.{IsSourceCourse};
ghost use Rattle.pfc_source_runs.specs.Points.{first_point};
ghost use Rattle.pfc_source_runs.specs.Standing.{IsStanding, StandsIn};

use pfc_checked_runs::checked_runs_are_kept;

/// The image of a checked program of at most 200,000 instructions starts. Where its text writes numbers of 32 bits and the input is bytes, who is picked may
/// act in each action, the run is that of the source text, and so is what a session comes to that makes it, whose machine stands where that does.
pub fn checked_programs_run()
    ensures start { (t : ProgramTree) → IsLawful (forget_program t) → first_fault t ≡ None → length (image_of t).code ≤ 200000 → CanStart (image_of t) }
    ensures may { (t : ProgramTree) (input : List ℕ) (seed limit : ℕ) (picking : Picking)
        → IsSmall (forget_program t) → first_fault t ≡ None → FitsTree t → AreBytes input → length (image_of t).code ≤ 200000
        → MayRun (image_of t) limit picking (start_machine (image_of t) input seed) }
    ensures runs { (t : ProgramTree) (input : List ℕ) (seed limit : ℕ) (picking : Picking)
        → IsSmall (forget_program t) → first_fault t ≡ None → FitsTree t → AreBytes input → length (image_of t).code ≤ 200000
        → AreRunsAlike (run_from (image_of t) limit limit picking (start_machine (image_of t) input seed)) (source.run t input seed picking limit)
        (start (program_of t) input seed) }
    ensures sessions { (t : ProgramTree) (input : List ℕ) (seed limit : ℕ) (picking : Picking) (new : Machine) (ending : Ending)
        (before after : Option (List ℕ))
        → IsSmall (forget_program t) → first_fault t ≡ None → FitsTree t → AreBytes input → length (image_of t).code ≤ 200000
        → IsCourse (image_of t) limit (run_from (image_of t) limit limit picking (start_machine (image_of t) input seed))
        (first_stage picking (start_machine (image_of t) input seed)) new ending before after
        → IsSourceCourse (source.run t input seed picking limit) (start (program_of t) input seed) new ending before after }
    ensures standing { (t : ProgramTree) (input : List ℕ) (seed limit : ℕ) (picking : Picking) (new : Machine) (ending : Ending)
        (before after : Option (List ℕ))
        → IsSmall (forget_program t) → first_fault t ≡ None → FitsTree t → AreBytes input → length (image_of t).code ≤ 200000
        → IsCourse (image_of t) limit (run_from (image_of t) limit limit picking (start_machine (image_of t) input seed))
        (first_stage picking (start_machine (image_of t) input seed)) new ending before after
        → IsStanding (start_facts t) limit (source.run t input seed picking limit) (first_point picking (start (program_of t) input seed))
        new ending before after }
    ensures somewhere { (t : ProgramTree) (input : List ℕ) (seed limit : ℕ) (picking : Picking) (new : Machine) (ending : Ending)
        (before after : Option (List ℕ))
        → IsSmall (forget_program t) → first_fault t ≡ None → FitsTree t → AreBytes input → length (image_of t).code ≤ 200000
        → IsCourse (image_of t) limit (run_from (image_of t) limit limit picking (start_machine (image_of t) input seed))
        (first_stage picking (start_machine (image_of t) input seed)) new ending before after
        → StandsIn (start_facts t) limit (source.run t input seed picking limit) (first_point picking (start (program_of t) input seed)) new }
{
    checked_runs_are_kept();
}
