//! The laws. The functions do nothing: their contracts are the laws.
ghost use Rattle.std.specs.Prelude.{◌≡◌, ℕ, List, [], Option, Some};
ghost use Rattle.pfc_tree.specs.trees.Parts.{ProgramTree};
ghost use Rattle.pfc_tree.specs.forget.Parts.{forget_program};
ghost use Rattle.pfc_tree.specs.lawful.Parts.{IsLawful};
ghost use Rattle.pfc_types.specs.rules.Whole.{broken};
ghost use Rattle.pfc_semantics.specs.Programs.{program_of};
ghost use Rattle.pfc_semantics.specs.Configurations.{Config, start};
ghost use Rattle.pfc_semantics.specs.Steps.{next_of};
ghost use Rattle.pfc_semantics.specs.Time.{settled_config};
ghost use Rattle.pfc_run_rules.specs.Rules.{AreBarredAtTheirOwn, KeepsToRules};
ghost use Rattle.pfc_guard_laws.specs.Remainders.{GuardsByRules};
ghost use Rattle.pfc_guard_laws.specs.Configurations.{SuitsInOrder, SuitsProgram, ScansByRules};
ghost use Rattle.pfc_guard_laws.specs.Runs.{RunsTo, RunsOnce, RunsLiving};
ghost use Rattle.pfc_guard_laws.specs.Keeping.{IsOutsideAtEnds, HoldsAtResumes};
ghost use Rattle.pfc_guard_laws.specs.Tops.{Tops};
ghost use Rattle.pfc_checked_guards.specs.Order.{ProgramInOrder};
ghost use Rattle.pfc_run_guards.specs.Headings.{HeadingsStand};

/// In a run of a program in which no static rule is broken each guard at which a process is barred, and that at which one is about to be, is of the resource in
/// which its procedure stands; the guard is tried with the names in view there, and a scan has its own line. And who scans behind a return has left the
/// resource, where returns are from resources that were entered once.
pub fn checked_runs_try_their_own_guards()
    ensures headings { (t : ProgramTree) → IsLawful (forget_program t) → broken t ≡ [] → HeadingsStand t }
    ensures programs { (t : ProgramTree) → IsLawful (forget_program t) → broken t ≡ [] → SuitsProgram (program_of t) }
    ensures barred { (t : ProgramTree) (input : List ℕ) (seed : ℕ) (c : Config) → IsLawful (forget_program t) → broken t ≡ []
        → RunsTo (program_of t) (start (program_of t) input seed) c → AreBarredAtTheirOwn (program_of t) (settled_config c) }
    ensures next { (t : ProgramTree) (input : List ℕ) (seed : ℕ) (c : Config) (p : ℕ) → IsLawful (forget_program t) → broken t ≡ []
        → RunsTo (program_of t) (start (program_of t) input seed) c → GuardsByRules (program_of t) (next_of (program_of t) (settled_config c) p) }
    ensures scans { (t : ProgramTree) (input : List ℕ) (seed : ℕ) (c : Config) (p : ℕ) → IsLawful (forget_program t) → broken t ≡ []
        → RunsOnce (program_of t) (start (program_of t) input seed) c
        → ScansByRules (program_of t) (settled_config c) p (next_of (program_of t) (settled_config c) p) }
    ensures rules { (t : ProgramTree) (input : List ℕ) (seed : ℕ) (c : Config) (p : ℕ) → IsLawful (forget_program t) → broken t ≡ []
        → RunsOnce (program_of t) (start (program_of t) input seed) c → IsOutsideAtEnds (program_of t) (settled_config c) p
        → HoldsAtResumes (program_of t) (settled_config c) p → KeepsToRules (program_of t) (settled_config c) p }
{}

/// Where what is named in view comes in an order of the parts of the program, and whoever acts has an activation, each run of a checked program returns but
/// once from each resource and each monitor, as it enters it, and so it keeps to all rules but for who holds what it resumes in.
pub fn checked_runs_return_once()
    ensures suits { (t : ProgramTree) (tops : Option Tops) → IsLawful (forget_program t) → broken t ≡ [] → ProgramInOrder (program_of t) tops
        → SuitsInOrder (program_of t) tops }
    ensures once { (t : ProgramTree) (tops : Tops) (input : List ℕ) (seed : ℕ) (c : Config) → IsLawful (forget_program t) → broken t ≡ []
        → ProgramInOrder (program_of t) (Some tops) → RunsLiving (program_of t) (start (program_of t) input seed) c
        → RunsOnce (program_of t) (start (program_of t) input seed) c }
    ensures outside { (t : ProgramTree) (tops : Tops) (input : List ℕ) (seed : ℕ) (c : Config) (p : ℕ) → IsLawful (forget_program t) → broken t ≡ []
        → ProgramInOrder (program_of t) (Some tops) → RunsLiving (program_of t) (start (program_of t) input seed) c
        → IsOutsideAtEnds (program_of t) (settled_config c) p }
    ensures rules { (t : ProgramTree) (tops : Tops) (input : List ℕ) (seed : ℕ) (c : Config) (p : ℕ) → IsLawful (forget_program t) → broken t ≡ []
        → ProgramInOrder (program_of t) (Some tops) → RunsLiving (program_of t) (start (program_of t) input seed) c
        → HoldsAtResumes (program_of t) (settled_config c) p → KeepsToRules (program_of t) (settled_config c) p }
{}
