//! The laws. The functions do nothing: their contracts are the laws.
ghost use Rattle.std.specs.Prelude.{◌≡◌, []};
ghost use Rattle.pfc_tree.specs.trees.Parts.{ProgramTree};
ghost use Rattle.pfc_tree.specs.forget.Parts.{forget_program};
ghost use Rattle.pfc_tree.specs.lawful.Parts.{IsLawful};
ghost use Rattle.pfc_types.specs.rules.Whole.{broken};
ghost use Rattle.pfc_semantics.specs.Programs.{program_of};
ghost use Rattle.pfc_number_laws.specs.Written.{FitsTree};
ghost use Rattle.pfc_inside_laws.specs.Inside.{IsScoped, HasText};
ghost use Rattle.pfc_inside_programs.specs.Declared.{DeclaresSubs};

/// In the bodies of a lawful program in which no static rule is broken accepts have scopes of parameters, none of
/// which is a monitor's, and numbers have 32 bits
/// where those that are written have.
pub fn checked_programs_have_text()
    ensures { (t : ProgramTree) → IsLawful (forget_program t) → broken t ≡ [] → FitsTree t → HasText (program_of t) }
{}

/// Such a program is scoped as it is asked, where names of subs stand where these are declared: what is called by a
/// name in view sees no monitor that is not seen
/// there, what is called from outside a module no monitor but that one, and processes and guards see none.
pub fn checked_programs_are_scoped()
    ensures { (t : ProgramTree) → IsLawful (forget_program t) → broken t ≡ [] → FitsTree t → DeclaresSubs (program_of t) → IsScoped (program_of t) }
{}
