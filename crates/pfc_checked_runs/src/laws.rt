//! The laws. The functions do nothing, or cite another: their contracts are the laws.
ghost use Rattle.std.specs.Prelude.{◌≡◌, ℕ, List, ◌≤◌, length, None};
ghost use Rattle.pfc_semantics.specs.Displays.{Spot};
ghost use Rattle.pfc_semantics.specs.Remainders.{Context, Remainder, Argument, resumes, calls, to_entry, Accepting, Open, Selecting, to_accept, decides, meets};
ghost use Rattle.pfc_semantics.specs.Configurations.{Config, number_for, start};
ghost use Rattle.pfc_semantics.specs.Steps.{next_of};
ghost use Rattle.pfc_machines.specs.declared.machine.Machine.{Machine};
ghost use Rattle.pfc_representation.specs.Levels.{Facts, program_in, LivingLevel};
ghost use Rattle.pfc_representation.specs.Acting.{IsActing, HasArrived};
ghost use Rattle.pfc_arrivals.specs.Arrivals.{AreNumbered};
ghost use Rattle.pfc_holding_laws.specs.Inside.{NamesItsMonitor};
ghost use Rattle.pfc_accept_laws.specs.Displays.{RequeuesInside, AllGoBack};
ghost use Rattle.pfc_accept_laws.specs.Shown.{TakesVariables, Passes, AllPass};
ghost use Rattle.pfc_accept_laws.specs.Placed.{AllPlaced};
ghost use Rattle.pfc_kept_meetings.specs.Accepts.{KeepsAccepts};
ghost use Rattle.pfc_kept_meetings.specs.Waiting.{StandsWithin, KeepsOffers};
ghost use Rattle.pfc_kept_meetings.specs.entries.Selects.{StandWithin};
ghost use Rattle.pfc_tree.specs.trees.Parts.{ProgramTree};
ghost use Rattle.pfc_tree.specs.forget.Parts.{forget_program};
ghost use Rattle.pfc_tree.specs.Grammar.{IsSmall};
ghost use Rattle.pfc_types.specs.rules.Whole.{first_fault};
ghost use Rattle.pfc_semantics.specs.Programs.{program_of};
ghost use Rattle.pfc_translation.specs.Images.{image_of};
ghost use Rattle.pfc_run_invariants.specs.Inputs.{AreBytes};
ghost use Rattle.pfc_number_laws.specs.Written.{FitsTree};
ghost use Rattle.pfc_represented_start.specs.Starts.{start_facts};
ghost use Rattle.pfc_simulation.specs.Reached.{RunKeepsToRules, IsRunKept};

use pfc_accept_programs::checked_runs_tell_of_accepts;

/// Where the code of a checked program has arrived at a `resume`, the variable that it names is one of a monitor, and the condition there is of that monitor,
/// in a program whose objects have the numbers of its image.
pub fn resumers_name_their_monitors()
    ensures { (facts : Facts) (m : Machine) (c : Config) (p : ℕ) (level : LivingLevel) (x : Context) (v : Spot) (k : Remainder) → AreNumbered facts
        → IsActing facts m c p level → HasArrived facts m c p level (next_of (program_in facts) c p) → next_of (program_in facts) c p ≡ resumes x v k
        → NamesItsMonitor (program_in facts) c p v }
{}

/// Where it has arrived at a `requeue`, the process has entered a resource in its innermost activation.
pub fn requeues_stand_inside()
    ensures { (facts : Facts) (m : Machine) (c : Config) (p : ℕ) (level : LivingLevel) → IsActing facts m c p level
        → HasArrived facts m c p level (next_of (program_in facts) c p) → RequeuesInside (program_in facts) c p }
{}

/// Where it has arrived at a call of an entry, a variable is given for each parameter that the entry takes by reference; so a location is passed for it.
pub fn calls_of_entries_pass_variables()
    ensures given { (facts : Facts) (m : Machine) (c : Config) (p : ℕ) (level : LivingLevel) (x : Context) (s : Spot) (entry : ℕ) (k : Remainder)
        (given : List Argument) → AreNumbered facts → IsActing facts m c p level → HasArrived facts m c p level (calls x (to_entry s entry k) given)
        → TakesVariables (program_in facts) (number_for (program_in facts) c p s) entry given }
    ensures passed { (facts : Facts) (m : Machine) (c : Config) (p : ℕ) (level : LivingLevel) → AreNumbered facts → IsActing facts m c p level
        → HasArrived facts m c p level (next_of (program_in facts) c p) → Passes (program_in facts) c p }
{}

/// What rendezvous ask of a configuration: where displays go back to those with which processes began, and callers pass locations, it is so of those who take
/// part; and where all processes are placed, each accept that is offered, or comes next, is one of its block, and behind all that is in view there.
pub fn accepts_are_told()
    ensures accepts { (facts : Facts) (c : Config) → AllGoBack (program_in facts) c → AllPass (program_in facts) c → KeepsAccepts facts c }
    ensures offers { (facts : Facts) (c : Config) → AllPlaced (program_in facts) c → KeepsOffers facts c }
    ensures meets { (facts : Facts) (c : Config) (p : ℕ) (x : Context) (o : Open) (k : Remainder) (a : Accepting) → AllPlaced (program_in facts) c
        → next_of (program_in facts) c p ≡ meets x o k → o.offer ≡ to_accept a → StandsWithin facts c p x a }
    ensures decides { (facts : Facts) (c : Config) (p : ℕ) (x : Context) (sel : Selecting) (k : Remainder) → AllPlaced (program_in facts) c
        → next_of (program_in facts) c p ≡ decides x sel k → StandWithin facts c p x sel.offered }
{}

/// Wherever a run of a checked program comes, over an input of bytes, what is done next is kept, keeps to the rules of runs, and takes counts and ranks of 32
/// bits: where the text writes numbers of 32 bits, and the image has at most 200,000 instructions.
pub fn checked_runs_are_kept()
    ensures kept { (t : ProgramTree) (input : List ℕ) (seed : ℕ) → IsSmall (forget_program t) → first_fault t ≡ None → FitsTree t → AreBytes input
        → length (image_of t).code ≤ 200000 → IsRunKept (start_facts t) (start (program_of t) input seed) }
    ensures rules { (t : ProgramTree) (input : List ℕ) (seed : ℕ) → IsSmall (forget_program t) → first_fault t ≡ None → FitsTree t → AreBytes input
        → length (image_of t).code ≤ 200000 → RunKeepsToRules (program_of t) (start (program_of t) input seed) }
{
    checked_runs_tell_of_accepts();
}
