//! The laws. The functions do nothing: their contracts are the laws.
ghost use Rattle.pfc_standing_code.specs.Words.{is_known};
ghost use Rattle.std.specs.Prelude.{◌≡◌, ℕ, true, false, ◌||◌, [], ◌∷◌, take, drop, Some};
ghost use Rattle.std.specs.List.{slice_get};
ghost use Rattle.pfc_tree.specs.trees.Parts.{ProgramTree};
ghost use Rattle.pfc_tree.specs.forget.Parts.{forget_program};
ghost use Rattle.pfc_tree.specs.lawful.Parts.{IsLawful};
ghost use Rattle.pfc_types.specs.Scopes.{scope_at};
ghost use Rattle.pfc_semantics.specs.Layouts.{process_layout};
ghost use Rattle.pfc_semantics.specs.Programs.{Block, Program, block_at, program_of};
ghost use Rattle.pfc_translation.specs.Sites.{is_mains, links_from, is_accept};
ghost use Rattle.pfc_image_laws.specs.Levels.{IsReached, sees};
ghost use Rattle.pfc_call_laws.specs.Around.{scopes_around, HasScopes, IsNested};
ghost use Rattle.pfc_nesting_laws.specs.Nesting.{AreOnce};

/// Static links lead from each block as many levels up as the image has. So a block that is declared in a scope in view, or in one of main's, is nested
/// in the block from which it is called: around it are its own scope and those that are around the caller from the scope on in which it is declared.
pub fn reached_blocks_are_nested()
    ensures { (g : Program) (b callee : Block)
        → IsReached g b → IsReached g callee → block_at g callee.scope ≡ callee → is_mains g.state.blocks callee.scope ≡ false
        → AreOnce (scopes_around g b) → AreOnce (scopes_around g callee)
        → (is_mains g.state.blocks callee.outer || sees b.env.view callee.outer) ≡ true
        → ((i : ℕ) → is_known g.state.blocks b [] i ≡ true → is_accept b i ≡ false)
        → IsNested g b callee (links_from g.state.blocks b callee.outer) }
{}

/// In a lawful program each block is found by its scope, the scopes around it are told apart, and so are those of its accepts and of the program's
/// modules. A block that is declared in a scope in view of another, or of the main body, or in one of main's is nested in it as its static link says; and
/// in main's code, the initialising bodies among it, one of those of main's is next to it.
pub fn program_blocks_are_nested()
    ensures scopes { (t : ProgramTree) (k : ℕ) (b : Block) → IsLawful (forget_program t) → slice_get (program_of t).blocks k ≡ Some b
        → HasScopes (program_of t) b }
    ensures layouts { (t : ProgramTree) (k i : ℕ) (b : Block) → IsLawful (forget_program t) → slice_get (program_of t).blocks k ≡ Some b
        → is_accept b i ≡ true
        → (let scopes = (program_of t).state.blocks.scopes in
        b.layout ≡ process_layout (scope_at scopes b.scope) (take b.accepts (drop b.next scopes))) }
    ensures nested { (t : ProgramTree) (j k : ℕ) (b callee : Block)
        → IsLawful (forget_program t) → slice_get ((program_of t).main ∷ (program_of t).blocks) j ≡ Some b → slice_get (program_of t).blocks k ≡ Some callee
        → (is_mains (program_of t).state.blocks callee.outer || sees b.env.view callee.outer) ≡ true
        → IsNested (program_of t) b callee (links_from (program_of t).state.blocks b callee.outer) }
    ensures in_main { (t : ProgramTree) (k : ℕ) (b callee : Block)
        → IsLawful (forget_program t) → scopes_around (program_of t) b ≡ [] → ((i : ℕ) → is_accept b i ≡ false)
        → slice_get (program_of t).blocks k ≡ Some callee → is_mains (program_of t).state.blocks callee.outer ≡ true → IsNested (program_of t) b callee 0 }
    ensures main { (t : ProgramTree) → IsLawful (forget_program t)
        → (scopes_around (program_of t) (program_of t).main ≡ []) × (block_at (program_of t) 0 ≡ (program_of t).main)
        × ((i : ℕ) → is_accept (program_of t).main i ≡ false) }
{}
