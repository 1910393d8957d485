//! The laws. The functions do nothing: their contracts are the laws.
ghost use Rattle.std.specs.Prelude.{◌≡◌, ◌≤◌, []};
ghost use Rattle.pfc_tree.specs.trees.Parts.{ProgramTree};
ghost use Rattle.pfc_tree.specs.forget.Parts.{forget_program};
ghost use Rattle.pfc_tree.specs.lawful.Parts.{IsLawful};
ghost use Rattle.pfc_types.specs.rules.Whole.{broken};
ghost use Rattle.pfc_translation.specs.Images.{image_of};

/// In the image of a lawful program in which no static rule is broken no select has more than 1,024 alternatives.
pub fn alternatives_are_few()
    ensures { (t : ProgramTree) → IsLawful (forget_program t) → broken t ≡ [] → (image_of t).arms ≤ 1024 }
{}
