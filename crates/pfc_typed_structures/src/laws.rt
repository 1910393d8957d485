//! The laws.
ghost use Rattle.std.specs.Prelude.{◌≡◌, ℕ, [], Option};
ghost use Rattle.pfc_tree.specs.trees.Exprs.{ExprTree};
ghost use Rattle.pfc_tree.specs.trees.Stmts.{StmtTrees};
ghost use Rattle.pfc_types.specs.Faults.{listed};
ghost use Rattle.pfc_types.specs.rules.Statements.{broken_guard, broken_stmts};
ghost use Rattle.pfc_translation.specs.Sites.{Site};
ghost use Rattle.pfc_standing_code.specs.TypedStatements.{AreTyped, IsGuard};
ghost use Rattle.pfc_typed_phrases.specs.Names.{AreKnown};
ghost use Rattle.pfc_typed_structures.specs.Accepts.{AcceptEntries};
ghost use Rattle.pfc_typed_structures.specs.Inside.{AreMet, HaveScopes, AreLabelled};

/// The statements of a body in which no rule is broken have the shapes that their code needs, with all statements in them.
pub fn statements_are_typed()
    ensures { (s : Site) (n q : ℕ) (ts : StmtTrees) → AreMet s → HaveScopes s n ts → AcceptEntries s q n ts → AreLabelled ts
        → listed (broken_stmts s.env n ts) ≡ [] → AreTyped s n ts }
{}

/// A guard in which no rule is broken is a number.
pub fn guards_are_typed()
    ensures { (s : Site) (e : Option ExprTree) → AreKnown s → listed (broken_guard s.env e) ≡ [] → IsGuard s e }
{}
