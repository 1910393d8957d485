//! The laws. The functions do nothing: their contracts are the laws.
ghost use Rattle.std.specs.Prelude.{ℕ, ◌+◌, ◌<◌, ◌≡◌, length};
ghost use Rattle.std.specs.List.{AllByRecursion};
ghost use Rattle.pfc_tree.specs.trees.Parts.{ProgramTree};
ghost use Rattle.pfc_tree.specs.forget.Parts.{forget_program};
ghost use Rattle.pfc_tree.specs.lawful.Parts.{IsLawful};
ghost use Rattle.pfc_types.specs.Blocks.{module_at};
ghost use Rattle.pfc_types.specs.rules.Bodies.{parts_scopes};
ghost use Rattle.pfc_types.specs.rules.Whole.{finished};
ghost use Rattle.pfc_semantics.specs.Programs.{Block, program_of};
ghost use Rattle.pfc_checked_guards.specs.Order.{mark_of_module};
ghost use Rattle.pfc_checked_order.specs.Order.{tops_of, IsPlaced};

/// What an activation has entered that is called from outside a module stands where the module's own scope does, with which a part of the program begins.
pub fn modules_are_told_by_their_scopes()
    ensures marks { (t : ProgramTree) (n : ℕ) → n < length (finished t).blocks.modules
        → (tops_of t).of_mark (mark_of_module (finished t).blocks n) ≡ (module_at (finished t).blocks n).scope }
    ensures starts { (t : ProgramTree) (n : ℕ) → IsLawful (forget_program t) → n < length (finished t).blocks.modules
        → (tops_of t).of_scope (module_at (finished t).blocks n).scope ≡ (module_at (finished t).blocks n).scope }
{}

/// Each block of a program stands in the program itself, or in the part in which the block or the module around it stands.
pub fn blocks_stand_with_those_around()
    ensures { (t : ProgramTree) → AllByRecursion (λ (b : Block). IsPlaced (tops_of t).of_scope (1 + parts_scopes t.parts) b) (program_of t).blocks }
{}
