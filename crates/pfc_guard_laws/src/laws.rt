//! The laws. The functions do nothing: their contracts are the laws.
ghost use Rattle.std.specs.Prelude.{ℕ, List, Some};
ghost use Rattle.pfc_semantics.specs.Programs.{Program};
ghost use Rattle.pfc_semantics.specs.Configurations.{Config, activity_of, start};
ghost use Rattle.pfc_semantics.specs.Steps.{next_of};
ghost use Rattle.pfc_semantics.specs.Time.{settled_config};
ghost use Rattle.pfc_run_rules.specs.Rules.{AreBarredAtTheirOwn, KeepsToRules};
ghost use Rattle.pfc_guard_laws.specs.Remainders.{GuardsByRules};
ghost use Rattle.pfc_guard_laws.specs.Configurations.{SuitsInOrder, SuitsProgram, ScansByRules};
ghost use Rattle.pfc_guard_laws.specs.Runs.{RunsTo, ReturnsOnce, RunsOnce, RunsLiving};
ghost use Rattle.pfc_guard_laws.specs.Tops.{Tops, AreOrdered, IsRooted};
ghost use Rattle.pfc_guard_laws.specs.Keeping.{IsOutsideAtEnds, HoldsAtResumes};

/// Where a program calls what the rules ask, each guard at which a process is barred, and the guard at which one is about to be, is of the resource in which
/// its procedure stands, wherever a run comes.
pub fn guards_are_of_their_resources()
    ensures barred { (g : Program) (input : List ℕ) (seed : ℕ) (c : Config) → SuitsProgram g → RunsTo g (start g input seed) c
        → AreBarredAtTheirOwn g (settled_config c) }
    ensures next { (g : Program) (input : List ℕ) (seed : ℕ) (c : Config) (p : ℕ) → SuitsProgram g → RunsTo g (start g input seed) c
        → GuardsByRules g (next_of g (settled_config c) p) }
{}

/// Where a run returns from each resource but once, as it enters it, no activation of who scans behind such a return has entered that resource.
pub fn who_scans_has_left()
    ensures { (g : Program) (input : List ℕ) (seed : ℕ) (c : Config) (p : ℕ) → SuitsProgram g → RunsOnce g (start g input seed) c
        → ScansByRules g (settled_config c) p (next_of g (settled_config c) p) }
{}

/// Such a run keeps to all rules where a process is about to act that has entered once the monitor from which it returns, and holds that in which it resumes.
pub fn runs_keep_to_rules()
    ensures { (g : Program) (input : List ℕ) (seed : ℕ) (c : Config) (p : ℕ) → SuitsProgram g → RunsOnce g (start g input seed) c
        → IsOutsideAtEnds g (settled_config c) p → HoldsAtResumes g (settled_config c) p → KeepsToRules g (settled_config c) p }
{}

/// Who is about to return from what it entered has entered it once, where the activations of the process stand ever later in the text.
pub fn ordered_activations_enter_once()
    ensures resources { (tops : Tops) (g : Program) (c : Config) (p : ℕ) → AreOrdered tops (activity_of g c p).activations
        → IsRooted (activity_of g c p).activations → ReturnsOnce g c p }
    ensures monitors { (tops : Tops) (g : Program) (c : Config) (p : ℕ) → AreOrdered tops (activity_of g c p).activations → IsOutsideAtEnds g c p }
{}

/// Where a program calls in the order of its parts, and whoever acts has an activation, the activations of each process are in order wherever a run comes, and
/// the run returns but once from each resource and each monitor, as it enters it.
pub fn living_runs_return_once()
    ensures ordered { (tops : Tops) (g : Program) (input : List ℕ) (seed : ℕ) (c : Config) (p : ℕ) → SuitsInOrder g (Some tops)
        → RunsLiving g (start g input seed) c
        → AreOrdered tops (activity_of g (settled_config c) p).activations × IsRooted (activity_of g (settled_config c) p).activations }
    ensures runs { (tops : Tops) (g : Program) (input : List ℕ) (seed : ℕ) (c : Config) → SuitsInOrder g (Some tops) → RunsLiving g (start g input seed) c
        → RunsOnce g (start g input seed) c }
    ensures resources { (tops : Tops) (g : Program) (input : List ℕ) (seed : ℕ) (c : Config) (p : ℕ) → SuitsInOrder g (Some tops)
        → RunsLiving g (start g input seed) c → ReturnsOnce g (settled_config c) p }
    ensures monitors { (tops : Tops) (g : Program) (input : List ℕ) (seed : ℕ) (c : Config) (p : ℕ) → SuitsInOrder g (Some tops)
        → RunsLiving g (start g input seed) c → IsOutsideAtEnds g (settled_config c) p }
{}
