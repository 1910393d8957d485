//! The laws.
ghost use Rattle.std.specs.Prelude.{◌≡◌, []};
ghost use Rattle.pfc_tree.specs.trees.Parts.{ProgramTree};
ghost use Rattle.pfc_types.specs.rules.Whole.{finished, broken};
ghost use Rattle.pfc_translation.specs.Sites.{Site};
ghost use Rattle.pfc_typed_phrases.specs.Names.{AreKnown};
ghost use Rattle.pfc_typed_statements.specs.Reached.{AreReached, AreCallable, HaveResults, HaveStarts};
ghost use Rattle.pfc_typed_statements.specs.Statements.{AssignmentsAreTyped, SendsAreTyped, ReceivesAreTyped, RequeuesAreTyped, ItemsAreWritten};
ghost use Rattle.pfc_typed_statements.specs.Statements.{ItemsAreRead, CallsAreTyped};

/// An assignment, a send, a receive or a requeue in which no rule is broken has parts of the shapes that its code needs.
pub fn messages_are_typed()
    ensures assignments { (s : Site) → AreKnown s → AreReached s → AssignmentsAreTyped s }
    ensures sends { (s : Site) → AreKnown s → AreReached s → SendsAreTyped s }
    ensures receives { (s : Site) → AreKnown s → AreReached s → ReceivesAreTyped s }
    ensures requeues { (s : Site) → AreKnown s → AreReached s → RequeuesAreTyped s }
{}

/// What is written is a string or a number, with a number for its width, and what is read is a variable of a simple type.
pub fn items_are_typed()
    ensures written { (s : Site) → AreKnown s → ItemsAreWritten s }
    ensures read { (s : Site) → AreKnown s → ItemsAreRead s }
{}

/// A call of a predeclared procedure, a sub, an exported procedure, an entry or a process in which no rule is broken has arguments of the shapes
/// that its code needs.
pub fn calls_are_typed()
    ensures { (s : Site) → AreKnown s → AreCallable s → CallsAreTyped s }
{}

/// In a program in which no static rule is broken what statements reach and call is known, where results, processes, entries and exported subs
/// have what they need.
pub fn what_is_reached_is_known()
    ensures reached { (t : ProgramTree) (s : Site) → s.program.state ≡ finished t → HaveResults s → AreReached s }
    ensures called { (t : ProgramTree) (s : Site) → broken t ≡ [] → s.program.state ≡ finished t → HaveStarts s → AreCallable s }
{}
