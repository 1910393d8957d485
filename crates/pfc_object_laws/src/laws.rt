//! The laws. The functions do nothing: their contracts are the laws.
ghost use Rattle.std.specs.Prelude.{◌≡◌, ℕ, ◌+◌, ℤ, pos, true, false, List, ◌++◌, length, map, get_or, replicate, slice_get, Option, Some};
ghost use Rattle.pfc_tree.specs.Symbols.{Text};
ghost use Rattle.pfc_tree.specs.trees.Parts.{ProgramTree};
ghost use Rattle.pfc_types.specs.Scopes.{scope_at};
ghost use Rattle.pfc_types.specs.declared.types.TypeId.{TypeId};
ghost use Rattle.pfc_types.specs.declared.scope.Meaning.{Meaning};
ghost use Rattle.pfc_types.specs.rules.Whole.{finished, types_of};
ghost use Rattle.pfc_semantics.specs.Values.{ordinal, part};
ghost use Rattle.pfc_semantics.specs.Layouts.{is_laid};
ghost use Rattle.pfc_semantics.specs.Programs.{program_of};
ghost use Rattle.pfc_translation.specs.Sites.{is_reference};
ghost use Rattle.pfc_translation.specs.Objects.{objects_of, all_labelled, names_labelled};
ghost use Rattle.pfc_stacks.specs.Stacks.{own_cells};
ghost use Rattle.pfc_stacks.specs.Starts.{numbered};
ghost use Rattle.pfc_cells.specs.Shapes.{IsPath};
ghost use Rattle.pfc_cells.specs.Homes.{Homes, cells_before, laid_type};
ghost use Rattle.pfc_cells.specs.Memory.{AreCells};
ghost use Rattle.pfc_standing_code.specs.Shapes.{is_object_type};
ghost use Rattle.pfc_object_laws.specs.Objects.{all_words, number_at, HasObject};
ghost use Rattle.pfc_object_laws.specs.Kinds.{Kinds, HasKind};
ghost use Rattle.pfc_object_laws.specs.Mains.{AreOfMain};

/// Where main's variables are no references, their first values fill the cells of its block: all are 0 but those of objects, which hold their numbers.
pub fn main_begins_with_its_values()
    ensures own { (t : ProgramTree) (k : ℕ) (m : Meaning) → AreOfMain (finished t) → slice_get (program_of t).main.layout k ≡ Some m
        → (is_laid m ≡ true) × (is_reference m ≡ false) }
    ensures cells { (t : ProgramTree) (homes : Homes) → AreOfMain (finished t)
        → AreCells (program_of t) homes (program_of t).main.layout (program_of t).variables (all_words (program_of t).variables) }
    ensures count { (t : ProgramTree) → AreOfMain (finished t) → length (all_words (program_of t).variables) ≡ (program_of t).main.cells }
    ensures words { (t : ProgramTree) (own : List ℤ) → AreOfMain (finished t) → length own ≡ own_cells
        → numbered (objects_of (program_of t)) (own ++ replicate (program_of t).main.cells (pos 0)) ≡ own ++ all_words (program_of t).variables }
{}

/// Each object of main's variables is found by the address of its cell, with the number that is its value; nothing else is found.
pub fn objects_are_found()
    ensures found { (t : ProgramTree) (k : ℕ) (m : Meaning) (path : List ℕ) (u : Option TypeId) (o : ℕ) → AreOfMain (finished t)
        → slice_get (program_of t).main.layout k ≡ Some m → IsPath (types_of t) (laid_type m) path u o → is_object_type (types_of t) u ≡ true
        → (n : ℤ)
        × (number_at (objects_of (program_of t)) (pos (own_cells + (cells_before (types_of t) (program_of t).main.layout k + o))) ≡ Some n)
        × (part path (get_or (program_of t).variables k (ordinal (pos 0))) ≡ ordinal n) }
    ensures only { (t : ProgramTree) (w n : ℤ) → AreOfMain (finished t) → number_at (objects_of (program_of t)) w ≡ Some n → HasObject (program_of t) w }
{}

/// The number of each object is one of its kind, among all objects of the program; and the processes are those that have labels, in the same order.
pub fn objects_have_kinds()
    ensures kinds { (t : ProgramTree) → AreOfMain (finished t)
        → (all : Kinds) × (all.semaphores ≡ (program_of t).objects.semaphores) × (all.conditions ≡ length (program_of t).objects.conditions)
        × (length all.carried ≡ (program_of t).objects.channels) × (all.processes ≡ (program_of t).objects.processes)
        × ((k : ℕ) (m : Meaning) (path : List ℕ) (u : TypeId) (o : ℕ) → slice_get (program_of t).main.layout k ≡ Some m
        → IsPath (types_of t) (laid_type m) path (Some u) o → HasKind (types_of t) all u (part path (get_or (program_of t).variables k (ordinal (pos 0))))) }
    ensures processes { (t : ProgramTree) → AreOfMain (finished t)
        → (program_of t).objects.processes
        ≡ map (λ (p : ℕ × Text). p.0) (names_labelled (all_labelled (types_of t)) (scope_at (finished t).blocks.scopes 0)) }
{}
