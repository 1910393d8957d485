//! The laws.
ghost use Rattle.std.specs.Prelude.{◌≡◌, []};
ghost use Rattle.pfc_tree.specs.trees.Parts.{ProgramTree};
ghost use Rattle.pfc_types.specs.rules.Whole.{finished, broken};
ghost use Rattle.pfc_translation.specs.Sites.{Site};
ghost use Rattle.pfc_typed_phrases.specs.Names.{HavePlaces, AreKnown};
ghost use Rattle.pfc_typed_phrases.specs.Phrases.{ExpressionsAreTyped, VariablesAreTyped, SelectorsAreTyped, ArgumentsAreTyped, ArgumentsAreWanted};

/// In a program in which no static rule is broken the names in view are known, whatever is in view, where the variables and the blocks of the
/// subs have their places.
pub fn names_are_known()
    ensures { (t : ProgramTree) (s : Site) → broken t ≡ [] → s.program.state ≡ finished t → s.env.state ≡ finished t → HavePlaces s → AreKnown s }
{}

/// An expression in which no rule is broken has a type, and the shape of that type.
pub fn expressions_are_typed()
    ensures { (s : Site) → AreKnown s → ExpressionsAreTyped s }
{}

/// A variable with its selectors, in which no rule is broken, has a type, and is a part of that type; selectors lead from a type to a part.
pub fn variables_are_typed()
    ensures variables { (s : Site) → AreKnown s → VariablesAreTyped s }
    ensures selectors { (s : Site) → AreKnown s → SelectorsAreTyped s }
{}

/// Arguments in which no rule is broken, and none between them and what is wanted, are what is wanted, and so those of a heading fit it.
pub fn arguments_are_typed()
    ensures wanted { (s : Site) → AreKnown s → ArgumentsAreWanted s }
    ensures headings { (s : Site) → AreKnown s → ArgumentsAreTyped s }
{}
