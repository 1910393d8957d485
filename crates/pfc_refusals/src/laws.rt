//! Laws of the definitions. Each function does nothing: its contract is the law.
ghost use Rattle.std.specs.Prelude.{ℕ, List, All, IfSome, IsTrue};
ghost use Rattle.pfc_scan.specs.Scanning.{IsScanCode};
ghost use Rattle.pfc_tree.specs.Symbols.{Symbol};
ghost use Rattle.pfc_tree.specs.Grammar.{IsSyntaxFault};
ghost use Rattle.pfc_tree.specs.trees.Parts.{ProgramTree};
ghost use Rattle.pfc_types.specs.rules.Whole.{broken, first_fault, first_concurrency_fault};
ghost use Rattle.pfc_refusals.specs.Words.{has_words, HasWords};

/// Each static rule that is broken in a tree has its words in the line of a refusal. So have the first of them, by which
/// the tree is refused, and the first of those of concurrency.
pub fn each_broken_rule_has_words()
    ensures all { (t : ProgramTree) → All HasWords (broken t) }
    ensures first { (t : ProgramTree) → IfSome (first_fault t) HasWords }
    ensures concurrency { (t : ProgramTree) → IfSome (first_concurrency_fault t) HasWords }
{}

/// Each code by which the scanner refuses a text has its words in the line of a refusal. So have the code of each syntax
/// fault, and that of a program with too many instructions, which is 501.
pub fn each_other_code_has_words()
    ensures scanner { (code : ℕ) → IsScanCode code → IsTrue (has_words code) }
    ensures syntax { (kinds : List Symbol) (code i : ℕ) → IsSyntaxFault kinds code i → IsTrue (has_words code) }
    ensures size { IsTrue (has_words 501) }
{}
