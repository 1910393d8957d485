//! The laws.
ghost use Rattle.pfc_tree.specs.trees.Exprs.{ExprTree, SelectorTrees, ActualTrees};
ghost use Rattle.std.specs.Prelude.{List, Option};
ghost use Rattle.pfc_types.specs.declared.types.TypeId.{TypeId};
ghost use Rattle.pfc_types.specs.declared.heads.Formal.{Formal};
ghost use Rattle.pfc_translation.specs.Sites.{Site};
ghost use Rattle.pfc_translation.specs.Expressions.{expr_code, selectors_code, args_code};
ghost use Rattle.pfc_code_laws.specs.Plain.{IsPlain};

/// The code of an expression, of selectors and of arguments is the same wherever it stands, so it has no jump; it has as many
/// instructions as it says; and it writes no string and has no select.
pub fn expressions_are_plain()
    ensures expressions { (s : Site) (e : ExprTree) → IsPlain (expr_code s e) }
    ensures selectors { (s : Site) (t : Option TypeId) (ss : SelectorTrees) → IsPlain (selectors_code s t ss) }
    ensures arguments { (s : Site) (formals : List Formal) (args : ActualTrees) → IsPlain (args_code s formals args) }
{}
