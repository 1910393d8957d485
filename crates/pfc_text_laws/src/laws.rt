//! The law. The function cites another: its contract is the law.
ghost use Rattle.std.specs.Prelude.{ℕ, List};
ghost use Rattle.pfc_base.specs.declared.places.Place.{Place};
ghost use Rattle.pfc_base.specs.declared.tokens.Token.{Token};
ghost use Rattle.pfc_scan.specs.Cutting.{IsCut, tokens};
ghost use Rattle.pfc_tree.specs.Symbols.{symbols};
ghost use Rattle.pfc_run_invariants.specs.Inputs.{AreBytes};
ghost use Rattle.pfc_number_laws.specs.Tokens.{FitSymbols};

use pfc_scan::tokens_are_small;

/// The tokens of a text write numbers of at most 32 bits, since a greater one refuses the text, and the chars of a text are bytes.
pub fn texts_write_small_numbers()
    ensures { (text : List ℕ) (ts : List Token) (end : Place) → AreBytes text → IsCut text (tokens ts end) → FitSymbols (symbols ts) }
{
    tokens_are_small();
}
