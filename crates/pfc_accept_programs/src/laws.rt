//! The laws. The functions cite others, or do nothing: their contracts are the laws.
ghost use Rattle.std.specs.Prelude.{true, ◌≡◌, ◌≢◌, ℕ, List, []};
ghost use Rattle.pfc_tree.specs.trees.Parts.{ProgramTree};
ghost use Rattle.pfc_types.specs.rules.Whole.{broken};
ghost use Rattle.pfc_state.specs.Stands.{is_unfinished};
ghost use Rattle.pfc_world.specs.Tables.{at};
ghost use Rattle.pfc_semantics.specs.Configurations.{Config, activity_of, start};
ghost use Rattle.pfc_semantics.specs.Events.{step};
ghost use Rattle.pfc_semantics.specs.Programs.{program_of};
ghost use Rattle.pfc_semantics.specs.Time.{settled_config};
ghost use Rattle.pfc_accept_laws.specs.Displays.{RequeuesInside};
ghost use Rattle.pfc_accept_laws.specs.Placed.{HasPlaces};
ghost use Rattle.pfc_accept_laws.specs.Shown.{Passes};
ghost use Rattle.pfc_accept_programs.specs.Told.{TellsOfAccepts};

use pfc_accept_laws::{callers_pass_locations, first_displays_come_back, processes_stay_placed};

/// Where no static rule is broken, each process has its statements where their numbers say: all names in view in its body are of scopes before those of its
/// accepts, and there are as many of these as are told of its block.
pub fn checked_programs_have_places()
    ensures { (t : ProgramTree) → broken t ≡ [] → HasPlaces (program_of t) }
{}

/// From the start of such a program on, while it settles, and behind each step of a process that has not ended and has living activations, it is so what tells
/// of accepts: where it requeues only inside what it has entered, and gives locations for what it passes by reference to entries.
pub fn checked_runs_tell_of_accepts()
    ensures start { (t : ProgramTree) (input : List ℕ) (seed : ℕ) → broken t ≡ []
        → TellsOfAccepts (program_of t) (start (program_of t) input seed) }
    ensures settles { (t : ProgramTree) (c : Config) → broken t ≡ [] → TellsOfAccepts (program_of t) c → TellsOfAccepts (program_of t) (settled_config c) }
    ensures steps { (t : ProgramTree) (c : Config) (p choice : ℕ) → broken t ≡ [] → TellsOfAccepts (program_of t) c
        → is_unfinished (at c.table.rows p) ≡ true → (activity_of (program_of t) c p).activations ≢ [] → RequeuesInside (program_of t) c p
        → Passes (program_of t) c p → TellsOfAccepts (program_of t) (step (program_of t) c p choice).config }
{
    checked_programs_have_places();
    first_displays_come_back();
    callers_pass_locations();
    processes_stay_placed();
}
