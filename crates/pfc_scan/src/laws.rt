//! What holds of every cutting of a text. The functions do nothing: their contracts are the laws.
ghost use Rattle.std.specs.Prelude.{◌≡◌, ℕ, List};
ghost use Rattle.pfc_base.specs.declared.places.Place.{Place};
ghost use Rattle.pfc_base.specs.declared.tokens.Token.{Token};
ghost use Rattle.pfc_scan.specs.Computed.{cut};
ghost use Rattle.pfc_scan.specs.Cutting.{Cutting, tokens, IsCut, IsWritten, text_start};
ghost use Rattle.pfc_scan.specs.Small.{AreBytes, AreSmall};

/// A text has at most one cutting: its tokens with the place of its end, or one refusal.
pub fn one_cutting()
    ensures { (text : List ℕ) (a b : Cutting) → IsCut text a → IsCut text b → a ≡ b }
{}

/// The cutting of a text is computed: it is what the function `cut` gives.
pub fn a_cutting_is_computed()
    ensures { (text : List ℕ) → IsCut text (cut text) }
{}

/// Between the tokens of a text, before the first and after the last, there is white space alone: white bytes and
/// comments. Each token stands at its place, and the end is the place after the last byte.
pub fn tokens_are_written()
    ensures { (text : List ℕ) (ts : List Token) (end : Place) → IsCut text (tokens ts end) → IsWritten text_start ts end text }
{}

/// The tokens of a text of bytes write numbers of at most 31 bits, since a greater one refuses the text, and literals that begin with a byte.
pub fn tokens_are_small()
    ensures { (text : List ℕ) (ts : List Token) (end : Place) → AreBytes text → IsCut text (tokens ts end) → AreSmall ts }
{}
