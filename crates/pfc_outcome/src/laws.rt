//! Laws of outcomes. Each function does nothing; its contract is the law.
ghost use Rattle.std.specs.Prelude.{◌≡◌, ℕ, List};
ghost use Rattle.pfc_io.specs.Files.{File};
ghost use Rattle.pfc_outcome.specs.Meanings.{Meaning};
ghost use Rattle.pfc_outcome.specs.Options.{Asked};
ghost use Rattle.pfc_outcome.specs.Outcomes.{Outcome, IsOutcome, IsOutcomeOf, IsOutcomeOfText};
ghost use Rattle.pfc_outcome.specs.Requests.{Request};

/// Under one meaning of programs there is at most one outcome of a text, of options and files, and of words and files: its
/// status, its bytes, and the run that ended so.
pub fn an_outcome_is_one()
    ensures text { (m : Meaning) (text : List ℕ) (request : Request) (a b : Outcome) → IsOutcomeOfText m text request a →
        IsOutcomeOfText m text request b → a ≡ b }
    ensures options { (m : Meaning) (asked : Asked) (files : List File) (a b : Outcome) → IsOutcomeOf m asked files a → IsOutcomeOf m asked files b → a ≡ b }
    ensures words { (m : Meaning) (words : List (List ℕ)) (files : List File) (a b : Outcome) → IsOutcome m words files a → IsOutcome m words files b → a ≡ b }
{}
