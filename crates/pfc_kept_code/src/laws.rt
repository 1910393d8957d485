//! The law. The function does nothing; its contract is the law.
ghost use Rattle.std.specs.Prelude.{◌≡◌, Bool};
ghost use Rattle.pfc_types.specs.rules.Expressions.{Env};
ghost use Rattle.pfc_semantics.specs.Programs.{Block};
ghost use Rattle.pfc_standing_code.specs.Settings.{View, Setting, of_own};
ghost use Rattle.pfc_kept_code.specs.Kept.{Agree, KeepsNames, KeepsRemainders, KeepsTurns, KeepsValues, KeepsLocations, KeepsCalls, KeepsDoing};

/// Where a process tries no other's guard, a view that agrees with its own on all names that are in view, or will be, may stand in the place of its
/// own: the names in view are known as before, and the code performs what is left, takes what is awaited and calls what is called.
pub fn performing_is_kept()
    ensures names { (g : Setting) (view : View) (b : Block) (names : Env → Bool) → Agree g view b names → KeepsNames g view b names }
    ensures remainders { (g : Setting) (view : View) (b : Block) (names : Env → Bool) → g.trial ≡ of_own → Agree g view b names
        → KeepsRemainders g view b names }
    ensures turns { (g : Setting) (view : View) (b : Block) (names : Env → Bool) → Agree g view g.block names → KeepsTurns g view b names }
    ensures values { (g : Setting) (view : View) (b : Block) (names : Env → Bool) → g.trial ≡ of_own → Agree g view b names → KeepsValues g view b names }
    ensures locations { (g : Setting) (view : View) (b : Block) (names : Env → Bool) → g.trial ≡ of_own → Agree g view b names → KeepsLocations g view b names }
    ensures calls { (g : Setting) (view : View) (b : Block) (names : Env → Bool) → g.trial ≡ of_own → Agree g view b names → KeepsCalls g view b names }
    ensures doing { (g : Setting) (view : View) (b : Block) (names : Env → Bool) → g.trial ≡ of_own → Agree g view b names → KeepsDoing g view b names }
{}
