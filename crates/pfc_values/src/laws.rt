//! What holds of printing and reading together. The function does nothing: its contract is the law.
ghost use Rattle.std.specs.Prelude.{◌≡◌, ℤ, true, Option, Ok, List, ℕ, [], ◌++◌};
ghost use Rattle.pfc_values.specs.declared.simple.Simple.TheVariants.{Integer};
ghost use Rattle.pfc_values.specs.Inputs.{item, digits};
ghost use Rattle.pfc_values.specs.Numbers.{is_of};
ghost use Rattle.pfc_values.specs.Pieces.{piece, shown};

/// An integer that was put, with any width, is read as itself where no digit follows, and what follows is left.
pub fn integers_are_read_as_they_are_put()
    ensures { (n : ℤ) (width : Option ℤ) (added rest : List ℕ) → is_of Integer n ≡ true → piece width (shown Integer n) ≡ Ok added
        → digits rest ≡ [] → item Integer (added ++ rest) ≡ Ok (record { value = n; left = rest }) }
{}
