//! The laws.
ghost use Rattle.std.specs.Prelude.{◌≡◌, ℕ, ◌<◌, Bool, [], map};
ghost use Rattle.std.specs.List.{All};
ghost use Rattle.pfc_tree.specs.trees.Parts.{ProgramTree};
ghost use Rattle.pfc_tree.specs.forget.Parts.{forget_program};
ghost use Rattle.pfc_tree.specs.lawful.Parts.{IsLawful};
ghost use Rattle.pfc_types.specs.declared.heads.SubHead.{SubHead};
ghost use Rattle.pfc_types.specs.rules.Whole.{finished, broken};
ghost use Rattle.pfc_semantics.specs.Programs.{Block, program_of};
ghost use Rattle.pfc_translation.specs.Images.{instructions, statements_code, body_code};
ghost use Rattle.pfc_image_laws.specs.Instructions.{Each};
ghost use Rattle.pfc_image_cells.specs.Subs.{parts_subs};
ghost use Rattle.pfc_image_cells.specs.Cells.{IsVariable, NamesCell, AreNamed};
ghost use Rattle.pfc_types.specs.Types.{Forms, cells_in};
ghost use Rattle.pfc_types.specs.declared.types.TypeId.{TypeId};

/// The subs of a program are those among its parts, in the order of their headings, each with its scope.
pub fn subs_are_numbered()
    ensures { (t : ProgramTree) → map (λ (head : SubHead). head.scope) (finished t).blocks.subs ≡ parts_subs 1 t.parts }
{}

/// In a lawful program in which no static rule is broken each module has its name among those of the program.
pub fn modules_are_named()
    ensures { (t : ProgramTree) → IsLawful (forget_program t) → broken t ≡ [] → AreNamed (finished t) }
{}

/// In a lawful program in which no static rule is broken, what an instruction of a body names by a level and a cell is a variable of the
/// block that lies so many static links up, by reference or not, and all cells of that variable are the block's. So it is of each body,
/// wherever its code is put, of the main body, and of each initialising body.
pub fn cells_are_named()
    ensures blocks { (t : ProgramTree) → IsLawful (forget_program t) → broken t ≡ []
        → All (λ (b : Block). (at strings : ℕ) → Each (NamesCell (program_of t) b) at (instructions ((body_code (program_of t) b).put at strings)))
        (program_of t).blocks }
    ensures main { (t : ProgramTree) → IsLawful (forget_program t) → broken t ≡ [] → (at strings : ℕ)
        → Each (NamesCell (program_of t) (program_of t).main) at (instructions ((body_code (program_of t) (program_of t).main).put at strings)) }
    ensures initial { (t : ProgramTree) → IsLawful (forget_program t) → broken t ≡ []
        → All (λ (b : Block). (at strings : ℕ) → Each (NamesCell (program_of t) b) at (instructions ((statements_code (program_of t) b).put at
        strings))) (program_of t).modules }
{}

/// Where each type takes a cell, the cell of a variable is below the number of its block's cells.
pub fn cells_are_below()
    ensures { (forms : Forms) (b : Block) (reference : Bool) (d : ℕ) → ((u : TypeId) → 0 < cells_in forms u) → IsVariable forms b reference d → d < b.cells }
{}
