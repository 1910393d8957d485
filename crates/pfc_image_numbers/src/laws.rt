//! The laws.
ghost use Rattle.std.specs.Prelude.{◌≡◌, ℕ, []};
ghost use Rattle.std.specs.List.{All};
ghost use Rattle.pfc_tree.specs.trees.Parts.{ProgramTree};
ghost use Rattle.pfc_tree.specs.forget.Parts.{forget_program};
ghost use Rattle.pfc_tree.specs.lawful.Parts.{IsLawful};
ghost use Rattle.pfc_types.specs.rules.Whole.{finished, broken};
ghost use Rattle.pfc_semantics.specs.Programs.{Block, program_of};
ghost use Rattle.pfc_code.specs.declared.instructions.Instr.{Instr};
ghost use Rattle.pfc_translation.specs.Images.{instructions, body_code, image_of};
ghost use Rattle.pfc_image_laws.specs.Instructions.{Each};
ghost use Rattle.pfc_image_numbers.specs.Numbers.{AreThere, IsUnruled, AcceptsWithin};

/// In the image of a lawful program each instruction but requeues and accepts names a monitor or a resource of the image, an entry of a
/// process, and marks that the machine knows, or none. Where no static rule is broken, so do requeues and accepts: a requeue stands in a
/// guarded procedure, which is a resource's, and an accept names an entry.
pub fn numbers_are_there()
    ensures lawful { (t : ProgramTree) → IsLawful (forget_program t)
        → Each (λ (at : ℕ) (i : Instr). IsUnruled i → AreThere (image_of t) (finished t) at i) 0 (image_of t).code }
    ensures checked { (t : ProgramTree) → IsLawful (forget_program t) → broken t ≡ []
        → Each (AreThere (image_of t) (finished t)) 0 (image_of t).code }
{}

/// In a lawful program in which no static rule is broken an accept names an entry of the process in whose body it stands, and writes its
/// parameters to cells of that block: so it is of each body, wherever its code is put, and of the main body, which has none.
pub fn accepts_are_within()
    ensures blocks { (t : ProgramTree) → IsLawful (forget_program t) → broken t ≡ []
        → All (λ (b : Block). (at strings : ℕ) → Each (AcceptsWithin (finished t).blocks b.scope b.cells) at (instructions ((body_code
        (program_of t) b).put at strings)))
        (program_of t).blocks }
    ensures main { (t : ProgramTree) → IsLawful (forget_program t) → broken t ≡ [] → (at strings : ℕ)
        → Each (AcceptsWithin (finished t).blocks (program_of t).main.scope (program_of t).main.cells) at (instructions ((body_code (program_of t)
        (program_of t).main).put at strings)) }
{}
