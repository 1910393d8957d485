//! The laws. The functions do nothing: their contracts are the laws.
ghost use Rattle.std.specs.Prelude.{◌≡◌, ℕ, ◌+◌, ◌<◌, ◌≤◌, ◌^◌, [], List, length, Option, None};
ghost use Rattle.pfc_tree.specs.trees.Parts.{ProgramTree};
ghost use Rattle.pfc_tree.specs.forget.Parts.{forget_program};
ghost use Rattle.pfc_tree.specs.lawful.Parts.{IsLawful};
ghost use Rattle.pfc_types.specs.rules.Whole.{finished, broken, first_fault};
ghost use Rattle.pfc_semantics.specs.Store.{with_room};
ghost use Rattle.pfc_semantics.specs.Programs.{program_of};
ghost use Rattle.pfc_semantics.specs.Configurations.{main_activity, start};
ghost use Rattle.pfc_translation.specs.Images.{image_of};
ghost use Rattle.pfc_stacks.specs.Starts.{start_stacks};
ghost use Rattle.pfc_cells.specs.Memory.{MemoryIs};
ghost use Rattle.pfc_machines.specs.Machines.{start_machine, CanStart};
ghost use Rattle.pfc_views.specs.Views.{AreObjects, AreFew};
ghost use Rattle.pfc_object_laws.specs.Objects.{number_at};
ghost use Rattle.pfc_object_laws.specs.Mains.{AreOfMain};
ghost use Rattle.pfc_representation.specs.Processes.{IsUnderWay};
ghost use Rattle.pfc_representation.specs.Holding.{Holders};
ghost use Rattle.pfc_representation.specs.Machines.{Represents};
ghost use Rattle.pfc_represented_start.specs.Starts.{start_homes, start_entries, main_descriptor, start_facts};

/// Before the first action the stacks hold the first values of main's variables, and each object has its number.
pub fn stacks_hold_the_first_values()
    ensures memory { (t : ProgramTree) → IsLawful (forget_program t) → AreOfMain (finished t)
        → MemoryIs (program_of t) start_homes (start_entries t) (with_room [] 0 (program_of t).variables) (start_stacks (image_of t)) }
    ensures few { (t : ProgramTree) → IsLawful (forget_program t) → AreOfMain (finished t) → length (image_of t).processes ≤ 1024
        → 8 + (program_of t).main.cells < 2 ^ 32 → AreFew (start_stacks (image_of t)) }
    ensures objects { (t : ProgramTree) → IsLawful (forget_program t) → AreOfMain (finished t)
        → AreObjects (program_of t) start_homes (start_entries t) (with_room [] 0 (program_of t).variables) (number_at (image_of t).objects) }
{}

/// Main is at its level: it sees its own variables, and its code does what the initialising bodies and its own body do.
pub fn main_is_at_its_level()
    ensures { (t : ProgramTree) (input : List ℕ) (seed : ℕ) (h : Holders) → IsLawful (forget_program t) → broken t ≡ [] → AreOfMain (finished t)
        → length (image_of t).processes ≤ 1024 → 8 + (program_of t).main.cells < 2 ^ 32
        → IsUnderWay (start_facts t) start_homes (start_entries t) (with_room [] 0 (program_of t).variables) (start_stacks (image_of t))
        (start (program_of t) input seed).table h 0 (main_activity (program_of t)) (main_descriptor t) }
{}

/// The machine before its first instruction represents the start of the source text, over the same input and with the same seed of `random`.
pub fn start_is_represented()
    ensures { (t : ProgramTree) (input : List ℕ) (seed : ℕ) → IsLawful (forget_program t) → broken t ≡ [] → AreOfMain (finished t)
        → CanStart (image_of t) → 8 + (program_of t).main.cells < 2 ^ 32 → length (image_of t).code ≤ 200000
        → Represents (start_facts t) (start_machine (image_of t) input seed) (start (program_of t) input seed) }
{}

/// The image of a checked program of a size that the addresses of the machine reach can start.
pub fn checked_programs_can_start()
    ensures unbroken { (t : ProgramTree) → IsLawful (forget_program t) → broken t ≡ [] → length (image_of t).code ≤ 200000 → CanStart (image_of t) }
    ensures checked { (t : ProgramTree) → IsLawful (forget_program t) → first_fault t ≡ None → length (image_of t).code ≤ 200000 → CanStart (image_of t) }
{}

/// So does every checked program of a size that the addresses of the machine reach: one in which no rule is broken, so that there is no first fault.
pub fn checked_programs_start_represented()
    ensures unbroken { (t : ProgramTree) (input : List ℕ) (seed : ℕ) → IsLawful (forget_program t) → broken t ≡ [] → length (image_of t).code ≤ 200000
        → Represents (start_facts t) (start_machine (image_of t) input seed) (start (program_of t) input seed) }
    ensures checked { (t : ProgramTree) (input : List ℕ) (seed : ℕ) → IsLawful (forget_program t) → first_fault t ≡ None → length (image_of t).code ≤ 200000
        → Represents (start_facts t) (start_machine (image_of t) input seed) (start (program_of t) input seed) }
{}
