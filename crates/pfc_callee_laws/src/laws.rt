//! The laws. The functions do nothing: their contracts are the laws.
ghost use Rattle.std.specs.Prelude.{◌≡◌, ℕ, ◌<◌, Bool, true, false, List, [], ◌∷◌, length, Some};
ghost use Rattle.std.specs.List.{slice_get};
ghost use Rattle.pfc_tree.specs.Symbols.{Text};
ghost use Rattle.pfc_tree.specs.trees.Parts.{ProgramTree};
ghost use Rattle.pfc_tree.specs.forget.Parts.{forget_program};
ghost use Rattle.pfc_tree.specs.lawful.Parts.{IsLawful};
ghost use Rattle.pfc_types.specs.Types.{held_of};
ghost use Rattle.pfc_types.specs.Scopes.{meaning_in, scope_at};
ghost use Rattle.pfc_types.specs.Blocks.{sub_at, module_at, process_at, entry_at};
ghost use Rattle.pfc_types.specs.declared.heads.Formal.{Formal};
ghost use Rattle.pfc_types.specs.declared.types.TypeId.{TypeId};
ghost use Rattle.pfc_types.specs.declared.scope.Meaning.TheVariants.{Sub, Variable};
ghost use Rattle.pfc_types.specs.rules.Routines.{is_function_sort};
ghost use Rattle.pfc_types.specs.rules.FaultyNames.{all_typed};
ghost use Rattle.pfc_types.specs.rules.Whole.{finished, broken};
ghost use Rattle.pfc_semantics.specs.Programs.{Block, block_at, layout_cells, program_of};
ghost use Rattle.pfc_semantics.specs.Processes.{declaration_of};
ghost use Rattle.pfc_translation.specs.Images.{image_of};
ghost use Rattle.pfc_translation.specs.Sites.{Site, is_mains, module_of};
ghost use Rattle.pfc_standing_code.specs.Typed.{ByName, InExpressions, FromOutside, ByRequeue, IsOfSub};
ghost use Rattle.pfc_typed_programs.specs.Bodies.{IsBody};
ghost use Rattle.pfc_callee_laws.specs.Callees.{IsSubBlock, IsProcessBlock, HasResultAt, IsCalledFrom, IsOfModule, IsRequeuedFrom, IsApart, IsMainsBody};

/// The scope of each heading of a sub or a process is that of a block, which the image has: its parameters stand first in its layout, no part of its variables
/// is an object, and what is in view in its body is known there. The block of a sub has a guard where the sub is guarded; that of a process has none, and
/// stands in the program.
pub fn subs_and_processes_have_blocks()
    ensures subs { (t : ProgramTree) (n : ℕ) → IsLawful (forget_program t) → broken t ≡ [] → n < length (finished t).blocks.subs
        → IsSubBlock t (sub_at (finished t).blocks n) }
    ensures processes { (t : ProgramTree) (n : ℕ) → IsLawful (forget_program t) → broken t ≡ [] → n < length (finished t).blocks.processes
        → IsProcessBlock t (process_at (finished t).blocks n) }
{}

/// The result of a function is a variable of its block, behind the parameters.
pub fn functions_have_results()
    ensures { (t : ProgramTree) (n : ℕ) → IsLawful (forget_program t) → broken t ≡ [] → n < length (finished t).blocks.subs
        → is_function_sort (sub_at (finished t).blocks n).sort ≡ true → HasResultAt t (sub_at (finished t).blocks n) }
{}

/// The block of a sub stands in the scope in which the sub's name is declared.
pub fn subs_stand_where_declared()
    ensures { (t : ProgramTree) (n i : ℕ) (x : Text) → IsLawful (forget_program t)
        → meaning_in (scope_at (finished t).blocks.scopes i) x ≡ Some (Sub n)
        → (block_at (program_of t) (sub_at (finished t).blocks n).scope).outer ≡ i }
{}

/// Main's own body and the initialising bodies see main's scopes alone.
pub fn mains_bodies_stand()
    ensures { (t : ProgramTree) (i : ℕ) (b : Block) → IsLawful (forget_program t)
        → slice_get ((program_of t).main ∷ (program_of t).modules) i ≡ Some b → IsMainsBody t b }
{}

/// Each block has the cells of its variables.
pub fn cells_are_counted()
    ensures { (t : ProgramTree) (k : ℕ) (b : Block) → IsLawful (forget_program t) → slice_get (program_of t).blocks k ≡ Some b
        → b.cells ≡ layout_cells (program_of t).state.forms b.layout }
{}

/// The sub that a body's code calls, whatever the way, is nested in that body as its static link says: it is declared in a scope in view there, or in one of
/// main's. What is called by its name, or in an expression, has no guard; and what a requeue names has one.
pub fn called_subs_are_nested()
    ensures by_name { (t : ProgramTree) (s : Site) (scope : ℕ) (formals : List Formal) → IsLawful (forget_program t) → broken t ≡ []
        → s.program ≡ program_of t → IsBody t s.block → IsOfSub s scope formals ByName → IsCalledFrom t s.block scope formals ByName }
    ensures in_expressions { (t : ProgramTree) (s : Site) (scope : ℕ) (formals : List Formal) → IsLawful (forget_program t) → broken t ≡ []
        → s.program ≡ program_of t → IsBody t s.block → IsOfSub s scope formals InExpressions → IsCalledFrom t s.block scope formals InExpressions }
    ensures from_outside { (t : ProgramTree) (s : Site) (n scope : ℕ) (formals : List Formal) → IsLawful (forget_program t) → broken t ≡ []
        → s.program ≡ program_of t → IsBody t s.block → IsOfSub s scope formals (FromOutside (finished t).blocks n)
        → IsCalledFrom t s.block scope formals (FromOutside (finished t).blocks n) }
    ensures by_requeue { (t : ProgramTree) (s : Site) (scope : ℕ) (formals : List Formal) → IsLawful (forget_program t) → broken t ≡ []
        → s.program ≡ program_of t → IsBody t s.block → IsOfSub s scope formals (ByRequeue s.block)
        → IsCalledFrom t s.block scope formals (ByRequeue s.block) }
{}

/// Each module is found by its scope. What is called from outside its module stands in that module; and a requeue leads from the body of a guarded procedure
/// to another of the same resource.
pub fn modules_have_their_procedures()
    ensures found { (t : ProgramTree) (n : ℕ) → IsLawful (forget_program t) → n < length (finished t).blocks.modules
        → module_of (finished t).blocks (module_at (finished t).blocks n).scope ≡ Some n }
    ensures from_outside { (t : ProgramTree) (b : Block) (n scope : ℕ) (formals : List Formal) → IsLawful (forget_program t) → broken t ≡ []
        → IsCalledFrom t b scope formals (FromOutside (finished t).blocks n) → IsOfModule t n (block_at (program_of t) scope) }
    ensures by_requeue { (t : ProgramTree) (b : Block) (scope : ℕ) (formals : List Formal) → IsLawful (forget_program t) → broken t ≡ [] → IsBody t b
        → IsCalledFrom t b scope formals (ByRequeue b) → IsRequeuedFrom t b (block_at (program_of t) scope) }
{}

/// The scope of a process is that of no sub, of no body of main's and of no other process, and those of its accepts are of no sub. Each of its variables takes
/// a cell, each parameter of an entry has a type, and each process that a program has is declared.
pub fn processes_are_apart()
    ensures blocks { (t : ProgramTree) (n : ℕ) → IsLawful (forget_program t) → broken t ≡ [] → n < length (finished t).blocks.processes
        → IsApart t (process_at (finished t).blocks n) }
    ensures once { (t : ProgramTree) (n k : ℕ) → IsLawful (forget_program t) → broken t ≡ [] → n < length (finished t).blocks.processes
        → k < length (finished t).blocks.processes → (process_at (finished t).blocks n).scope ≡ (process_at (finished t).blocks k).scope → n ≡ k }
    ensures declared { (t : ProgramTree) (q : ℕ) → IsLawful (forget_program t) → 0 < q → q < length (image_of t).processes
        → declaration_of (program_of t) q < length (finished t).blocks.processes }
    ensures entries { (t : ProgramTree) (n entry : ℕ) → IsLawful (forget_program t) → broken t ≡ []
        → all_typed (entry_at (finished t).blocks n entry) ≡ true }
{}

/// Outside main's scopes no variable holds a condition, and no parameter does.
pub fn conditions_are_declared_in_main()
    ensures { (t : ProgramTree) (i k : ℕ) (x : Text) (u : TypeId) (reference : Bool) → IsLawful (forget_program t)
        → is_mains (finished t).blocks i ≡ false → slice_get (scope_at (finished t).blocks.scopes i) k ≡ Some (x, Variable u reference)
        → (held_of (finished t).forms u).conditions ≡ false }
{}
