//! The laws. The functions do nothing: their contracts are the laws.
ghost use Rattle.std.specs.Prelude.{◌≡◌, [], Option};
ghost use Rattle.pfc_tree.specs.trees.Parts.{ProgramTree};
ghost use Rattle.pfc_tree.specs.forget.Parts.{forget_program};
ghost use Rattle.pfc_tree.specs.lawful.Parts.{IsLawful};
ghost use Rattle.pfc_types.specs.rules.Whole.{finished, broken};
ghost use Rattle.pfc_semantics.specs.Programs.{program_of};
ghost use Rattle.pfc_guard_laws.specs.Configurations.{SuitsInOrder, SuitsProgram};
ghost use Rattle.pfc_guard_laws.specs.Tops.{Tops};
ghost use Rattle.pfc_checked_guards.specs.Subs.{SubsStand, ModulesStand};
ghost use Rattle.pfc_checked_guards.specs.Order.{ProgramInOrder};

/// The bodies of a program in which no static rule is broken call what the rules ask, where its subs, processes and modules stand as their headings say.
pub fn checked_programs_call_as_asked()
    ensures { (t : ProgramTree) → IsLawful (forget_program t) → broken t ≡ [] → SubsStand (program_of t) (finished t).blocks
        → ModulesStand (program_of t) (finished t).blocks → SuitsProgram (program_of t) }
{}

/// And where what is named in view comes in some order of the parts of the program they call in that order.
pub fn checked_programs_call_in_order()
    ensures { (t : ProgramTree) (tops : Option Tops) → IsLawful (forget_program t) → broken t ≡ []
        → SubsStand (program_of t) (finished t).blocks → ModulesStand (program_of t) (finished t).blocks →
        ProgramInOrder (program_of t) tops → SuitsInOrder (program_of t) tops }
{}
