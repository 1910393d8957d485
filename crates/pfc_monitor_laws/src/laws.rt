//! The laws. The functions do nothing: their contracts are the laws.
ghost use Rattle.std.specs.Prelude.{◌≡◌, ◌≤◌, ℕ, List, [], length, Some};
ghost use Rattle.pfc_tree.specs.trees.Parts.{ProgramTree};
ghost use Rattle.pfc_tree.specs.forget.Parts.{forget_program};
ghost use Rattle.pfc_tree.specs.lawful.Parts.{IsLawful};
ghost use Rattle.pfc_tree.specs.tokens.Parts.{tokens_of};
ghost use Rattle.pfc_types.specs.Types.{condition};
ghost use Rattle.pfc_types.specs.declared.scope.Meaning.{Meaning};
ghost use Rattle.pfc_types.specs.rules.Whole.{finished, broken};
ghost use Rattle.pfc_translation.specs.Images.{image_of};
ghost use Rattle.pfc_cells.specs.Shapes.{IsPath};
ghost use Rattle.pfc_cells.specs.Homes.{laid_type};
ghost use Rattle.pfc_standing_code.specs.Typed.{IsOfScope};
ghost use Rattle.pfc_monitor_laws.specs.Owners.{IsItsMonitors};

/// The variable that holds a condition, itself or in a part, is one of a monitor, and the condition there is one of that monitor.
pub fn conditions_are_of_their_monitors()
    ensures { (t : ProgramTree) (i place : ℕ) (m : Meaning) (path : List ℕ) (o : ℕ) → IsLawful (forget_program t) → broken t ≡ []
        → IsOfScope (finished t).blocks i place m → IsPath (finished t).forms (laid_type m) path (Some condition) o → IsItsMonitors t i place m path }
{}

/// A program has no more monitors than tokens.
pub fn monitors_are_few()
    ensures { (t : ProgramTree) → IsLawful (forget_program t) → (image_of t).monitors ≤ length (tokens_of (forget_program t)) }
{}
