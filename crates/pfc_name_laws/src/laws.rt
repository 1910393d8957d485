//! The laws.
ghost use Rattle.std.specs.Prelude.{◌≡◌, false, List, [], map};
ghost use Rattle.pfc_tree.specs.Symbols.{Text};
ghost use Rattle.pfc_tree.specs.trees.Parts.{ProgramTree};
ghost use Rattle.pfc_tree.specs.forget.Parts.{forget_program};
ghost use Rattle.pfc_tree.specs.lawful.Parts.{IsLawful};
ghost use Rattle.pfc_types.specs.declared.heads.ProcessHead.{ProcessHead};
ghost use Rattle.pfc_name_laws.specs.Processes.{processes_from};
ghost use Rattle.pfc_types.specs.Blocks.{State};
ghost use Rattle.pfc_types.specs.Scopes.{Level, look};
ghost use Rattle.pfc_types.specs.rules.FaultyNames.{stands_faulty};
ghost use Rattle.pfc_types.specs.rules.Whole.{finished, broken, scopes_of};
ghost use Rattle.pfc_name_laws.specs.Reached.{Reached};
ghost use Rattle.pfc_name_laws.specs.Numbers.{AreNumbered};
ghost use Rattle.pfc_name_laws.specs.Headings.{AreHeaded};

/// What the declarations of a program make, lawful or not, is made step by step: what holds before the first declaration, and is kept by each
/// step, holds of every program.
pub fn declarations_are_steps()
    ensures { (t : ProgramTree) → Reached (finished t) }
{}

/// What a name stands for has its heading, as far as declarations have come, and so in every finished program.
pub fn names_are_numbered()
    ensures so_far { (s : State) → Reached s → AreNumbered s }
    ensures finished { (t : ProgramTree) → AreNumbered (finished t) }
{}

/// Each heading of a sub or a process has its scope, whose first names are the parameters, and each parameter has a type, as each parameter of an
/// entry has one, unless a rule is noted. A function gives a value of a simple type, and none is exported.
pub fn headings_are_whole()
    ensures so_far { (s : State) → Reached s → AreHeaded s }
    ensures finished { (t : ProgramTree) → AreHeaded (finished t) }
{}

/// A name is faulty only where a rule is noted. So in a program in which no static rule is broken no name is, whatever is in view.
pub fn no_name_is_faulty()
    ensures { (t : ProgramTree) (view : List Level) (x : Text) → broken t ≡ [] → stands_faulty (look (scopes_of t).scopes view x) ≡ false }
{}

/// The processes of a lawful program are those among its parts, in the order of the text, each with its scope.
pub fn processes_are_numbered()
    ensures { (t : ProgramTree) → IsLawful (forget_program t)
        → map (λ (head : ProcessHead). head.scope) (finished t).blocks.processes ≡ processes_from 1 t.parts }
{}
