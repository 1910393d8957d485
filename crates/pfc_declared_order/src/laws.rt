//! The laws. The functions do nothing: their contracts are the laws.
ghost use Rattle.std.specs.Prelude.{ℕ};
ghost use Rattle.pfc_tree.specs.trees.Parts.{PartTrees, ProgramTree};
ghost use Rattle.pfc_tree.specs.forget.Parts.{forget_program};
ghost use Rattle.pfc_tree.specs.lawful.Parts.{IsLawful};
ghost use Rattle.pfc_types.specs.Blocks.{State};
ghost use Rattle.pfc_types.specs.rules.Whole.{finished};
ghost use Rattle.pfc_declared_order.specs.Before.{AreBefore};
ghost use Rattle.pfc_declared_order.specs.Parts.{PartsStand};

/// At each part of a lawful program the subs and modules among the names that were passed were declared before it, and their scopes opened.
pub fn names_were_declared_before()
    ensures { (t : ProgramTree) → IsLawful (forget_program t) → AreBefore (finished t) 0 1 t.parts }
{}

/// The blocks of each part of a program stand among its scopes, and so do those that are in view in their bodies, but for the program's, of which they see the
/// names that were passed: subs and processes their own among them, and modules not.
pub fn blocks_stand_in_their_parts()
    ensures { (s : State) (n next : ℕ) (qs : PartTrees) → PartsStand s n next qs }
{}
