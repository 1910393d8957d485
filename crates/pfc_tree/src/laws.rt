//! Laws of the grammar. Each function does nothing; its contract is the law.
ghost use Rattle.std.specs.Prelude.{◌≡◌, ℕ, List, length};
ghost use Rattle.pfc_tree.specs.Symbols.{Symbol};
ghost use Rattle.pfc_tree.specs.shapes.Parts.{ProgramShape};
ghost use Rattle.pfc_tree.specs.trees.Parts.{ProgramTree};
ghost use Rattle.pfc_tree.specs.forget.Parts.{forget_program};
ghost use Rattle.pfc_tree.specs.kept.Exprs.{passed};
ghost use Rattle.pfc_tree.specs.kept.Parts.{trace_of};
ghost use Rattle.pfc_tree.specs.tokens.Parts.{tokens_of};
ghost use Rattle.pfc_tree.specs.depths.Parts.{depths_of};
ghost use Rattle.pfc_tree.specs.Grammar.{IsUnexpected, IsDeep, IsSyntaxFault};

/// A list of kinds has at most one syntax fault: the unexpected place is determined, so is the place that is too
/// deep, the two are never the same place, and so code and place of the fault are determined.
pub fn syntax_fault_is_determined()
    ensures unexpected { (kinds : List Symbol) (i j : ℕ) → IsUnexpected kinds i → IsUnexpected kinds j → i ≡ j }
    ensures deep { (kinds : List Symbol) (i j : ℕ) → IsDeep kinds i → IsDeep kinds j → i ≡ j }
    ensures apart { (kinds : List Symbol) (i : ℕ) → IsUnexpected kinds i → IsDeep kinds i → ⊥ }
    ensures code { (kinds : List Symbol) (c d i j : ℕ) → IsSyntaxFault kinds c i → IsSyntaxFault kinds d j → c ≡ d }
    ensures place { (kinds : List Symbol) (c d i j : ℕ) → IsSyntaxFault kinds c i → IsSyntaxFault kinds d j → i ≡ j }
{}

/// Each token of a tree has a depth.
pub fn each_token_has_a_depth()
    ensures { (tree : ProgramShape) → length (depths_of tree) ≡ length (tokens_of tree) }
{}

/// The places that a tree keeps are told over exactly the tokens that the tree writes.
pub fn each_token_is_passed()
    ensures { (tree : ProgramTree) → passed (trace_of tree) ≡ length (tokens_of (forget_program tree)) }
{}
