//! Laws of the readers. Each function does nothing; its contract is the law.
ghost use Rattle.std.specs.Prelude.{◌≡◌, ℕ, ◌-◌, ◌≤◌, ◌++◌, List, [], All, Ok, Err, length};
ghost use Rattle.pfc_tree.specs.Symbols.{Symbol, symbols};
ghost use Rattle.pfc_tree.specs.shapes.Parts.{ProgramShape};
ghost use Rattle.pfc_tree.specs.tokens.Parts.{tokens_of};
ghost use Rattle.pfc_tree.specs.lawful.Parts.{IsLawful};
ghost use Rattle.pfc_tree.specs.depths.Parts.{depths_of};
ghost use Rattle.pfc_tree.specs.Grammar.{most_depth, IsDeep, IsSyntaxFault};
ghost use Rattle.pfc_base.specs.declared.tokens.Token.{Token};
ghost use Rattle.pfc_tree.specs.trees.Parts.{ProgramTree};
ghost use Rattle.pfc_tree.specs.forget.Parts.{forget_program};
ghost use Rattle.pfc_grammar.specs.Outcomes.{IsRead, IsTreeOf, bare_outcome};
ghost use Rattle.pfc_grammar.specs.placed.Parts.{read_tokens};
ghost use Rattle.pfc_grammar.specs.Reading.{bad, deep};
ghost use Rattle.pfc_grammar.specs.grammar.Parts.{read_program};

/// What the reading of a list of kinds comes to, exactly. A tree that is read is lawful, writes the kinds and has no
/// token deeper than 64, so that no place of them is too deep; each such tree is read. A halt with `left` kinds left is
/// the syntax fault at that place: 201 where the kind there is unexpected, or the end where none is left, and 202 where
/// it is too deep.
pub fn a_reading_is_exact()
    ensures read { (kinds rest : List Symbol) (tree : ProgramShape) → read_program kinds ≡ Ok (tree, rest) → IsRead most_depth kinds tree }
    ensures back { (tree : ProgramShape) → IsLawful tree → All (λ d. d ≤ most_depth) (depths_of tree) → read_program (tokens_of tree) ≡ Ok (tree, []) }
    ensures level { (kinds rest : List Symbol) (tree : ProgramShape) (place : ℕ) → read_program kinds ≡ Ok (tree, rest) → IsDeep kinds place → ⊥ }
    ensures unexpected { (kinds : List Symbol) (left : ℕ) → read_program kinds ≡ Err (bad left) → IsSyntaxFault kinds 201 (length kinds - left) }
    ensures too_deep { (kinds : List Symbol) (left : ℕ) → read_program kinds ≡ Err (deep left) → IsSyntaxFault kinds 202 (length kinds - left) }
{}

/// A lawful tree is the only lawful tree, but for places, that writes its kinds, whatever their depths.
pub fn a_program_has_one_tree()
    ensures { (tree other : ProgramShape) → IsLawful tree → IsLawful other → tokens_of tree ≡ tokens_of other → tree ≡ other }
{}

/// No program is the beginning of a longer one.
pub fn a_program_begins_no_other()
    ensures { (tree other : ProgramShape) (more : List Symbol) → IsLawful tree → IsLawful other → tokens_of other ≡ tokens_of tree ++ more → more ≡ [] }
{}

/// What the reading of tokens comes to, exactly: but for places it is what the reading of their kinds comes to. A tree
/// that is read is one of the tokens, with their places, and has no token deeper than 64; each lawful shape that writes
/// the kinds and has none is read. A halt with `left` tokens left is the syntax fault at that place.
pub fn a_reading_of_tokens_is_exact()
    ensures bare { (tokens : List Token) → bare_outcome (read_tokens tokens) ≡ read_program (symbols tokens) }
    ensures read { (tokens rest : List Token) (tree : ProgramTree) → read_tokens tokens ≡ Ok (tree, rest) → IsTreeOf tokens tree }
    ensures within { (tokens rest : List Token) (tree : ProgramTree) → read_tokens tokens ≡ Ok (tree, rest) →
        All (λ d. d ≤ most_depth) (depths_of (forget_program tree)) }
    ensures back { (tokens : List Token) (shape : ProgramShape) → IsLawful shape → All (λ d. d ≤ most_depth) (depths_of shape) →
        symbols tokens ≡ tokens_of shape → bare_outcome (read_tokens tokens) ≡ Ok (shape, []) }
    ensures level { (tokens rest : List Token) (tree : ProgramTree) (place : ℕ) → read_tokens tokens ≡ Ok (tree, rest) → IsDeep (symbols tokens) place → ⊥ }
    ensures unexpected { (tokens : List Token) (left : ℕ) → read_tokens tokens ≡ Err (bad left) → IsSyntaxFault (symbols tokens) 201 (length tokens - left) }
    ensures too_deep { (tokens : List Token) (left : ℕ) → read_tokens tokens ≡ Err (deep left) → IsSyntaxFault (symbols tokens) 202 (length tokens - left) }
{}

/// A text has one tree: two trees of the same tokens, with their places, are the same, whatever their depths.
pub fn a_text_has_one_tree()
    ensures { (tokens : List Token) (tree other : ProgramTree) → IsTreeOf tokens tree → IsTreeOf tokens other → tree ≡ other }
{}

/// The tree of the tokens is read, where it has no token deeper than 64.
pub fn a_tree_of_tokens_is_read()
    ensures { (tokens : List Token) (tree : ProgramTree) → IsTreeOf tokens tree →
        All (λ d. d ≤ most_depth) (depths_of (forget_program tree)) → read_tokens tokens ≡ Ok (tree, []) }
{}
