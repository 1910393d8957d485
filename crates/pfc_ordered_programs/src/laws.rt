//! The laws. The functions do nothing: their contracts are the laws.
ghost use Rattle.std.specs.Prelude.{Some};
ghost use Rattle.pfc_tree.specs.trees.Parts.{ProgramTree};
ghost use Rattle.pfc_tree.specs.forget.Parts.{forget_program};
ghost use Rattle.pfc_tree.specs.lawful.Parts.{IsLawful};
ghost use Rattle.pfc_semantics.specs.Programs.{program_of};
ghost use Rattle.pfc_checked_guards.specs.Order.{ProgramInOrder};
ghost use Rattle.pfc_checked_order.specs.Order.{tops_of};

/// In a lawful program, of what is named in view in a body each sub stands in the same part of the program or in one before it, and each module before it.
/// The scopes of accepts hold parameters alone, and what a guarded procedure may requeue to stands in the procedure's part.
pub fn programs_are_in_order()
    ensures { (t : ProgramTree) → IsLawful (forget_program t) → ProgramInOrder (program_of t) (Some (tops_of t)) }
{}
