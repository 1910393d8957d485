//! The laws. The functions do nothing: their contracts are the laws.
ghost use Rattle.std.specs.Prelude.{◌≡◌, ℕ, List, []};
ghost use Rattle.pfc_tree.specs.trees.Parts.{ProgramTree};
ghost use Rattle.pfc_tree.specs.forget.Parts.{forget_program};
ghost use Rattle.pfc_tree.specs.lawful.Parts.{IsLawful};
ghost use Rattle.pfc_tree.specs.tokens.Parts.{tokens_of};
ghost use Rattle.pfc_types.specs.rules.Whole.{broken};
ghost use Rattle.pfc_semantics.specs.Programs.{Program, program_of};
ghost use Rattle.pfc_semantics.specs.Configurations.{Config, start};
ghost use Rattle.pfc_semantics.specs.Steps.{next_of};
ghost use Rattle.pfc_semantics.specs.Time.{settled_config};
ghost use Rattle.pfc_number_laws.specs.Written.{FitsTree};
ghost use Rattle.pfc_number_laws.specs.Tokens.{FitSymbols};
ghost use Rattle.pfc_number_laws.specs.Objects.{AreFew};
ghost use Rattle.pfc_run_invariants.specs.Inputs.{AreBytes};
ghost use Rattle.pfc_number_laws.specs.Numbers.{HasNumbers, AreSmall};
ghost use Rattle.pfc_number_laws.specs.Runs.{ComesTo, TakesSmall};

/// In a program whose numbers have 32 bits, over an input of bytes, all numbers have 32 bits wherever a run comes, whoever acts.
pub fn numbers_stay_small()
    ensures start { (g : Program) (input : List ℕ) (seed : ℕ) → HasNumbers g → AreBytes input → AreSmall g (start g input seed) }
    ensures runs { (g : Program) (first c : Config) → HasNumbers g → AreSmall g first → ComesTo g first c → AreSmall g c }
{}

/// What `initial` takes as a count there, and `delay` as a rank, has 32 bits.
pub fn counts_and_ranks_are_small()
    ensures { (g : Program) (first c : Config) (p : ℕ) → HasNumbers g → AreSmall g first → ComesTo g first c → TakesSmall (next_of g (settled_config c) p) }
{}

/// A tree that writes numbers of 32 bits alone has no others; and a program whose tree has no others has none, where no static rule is broken, since its
/// objects are few then.
pub fn checked_programs_have_small_numbers()
    ensures written { (t : ProgramTree) → FitSymbols (tokens_of (forget_program t)) → FitsTree t }
    ensures few { (t : ProgramTree) → IsLawful (forget_program t) → broken t ≡ [] → AreFew (program_of t).objects }
    ensures program { (t : ProgramTree) → IsLawful (forget_program t) → broken t ≡ [] → FitsTree t → HasNumbers (program_of t) }
{}

/// So it is in every run of such a program.
pub fn checked_programs_take_small_numbers()
    ensures { (t : ProgramTree) (input : List ℕ) (seed : ℕ) (c : Config) (p : ℕ) → IsLawful (forget_program t) → broken t ≡ [] → FitsTree t → AreBytes input
        → ComesTo (program_of t) (start (program_of t) input seed) c → TakesSmall (next_of (program_of t) (settled_config c) p) }
{}
