//! The laws.
ghost use Rattle.std.specs.Prelude.{◌<◌, ◌≡◌, Bool, false, List, Some};
ghost use Rattle.pfc_tree.specs.Symbols.{Text};
ghost use Rattle.pfc_tree.specs.trees.Parts.{ProgramTree};
ghost use Rattle.pfc_tree.specs.forget.Parts.{forget_program};
ghost use Rattle.pfc_tree.specs.lawful.Parts.{IsLawful};
ghost use Rattle.pfc_types.specs.Types.{cells_in, is_object};
ghost use Rattle.pfc_types.specs.Scopes.{Level, look};
ghost use Rattle.pfc_types.specs.declared.types.TypeId.{TypeId};
ghost use Rattle.pfc_types.specs.declared.scope.Meaning.TheVariants.{Variable};
ghost use Rattle.pfc_types.specs.rules.Whole.{types_of, scopes_of};
ghost use Rattle.pfc_cells.specs.Shapes.{AreCounted};
ghost use Rattle.pfc_standing_code.specs.Shapes.{IsSound};
ghost use Rattle.pfc_standing_code.specs.ValueTypes.{IsValueType};
ghost use Rattle.pfc_type_laws.specs.Tables.{IsOfVariables, IsBuiltUp};

/// In the table of types of every program, lawful or not, the predeclared types stand first, each type stands behind those that it is made
/// of, all but the predeclared ones are made of something, no element or field has the type `synchronous`, and the bounds of each array are ordinals of a
/// simple type, the low one not above the high one.
pub fn tables_are_built_up()
    ensures { (t : ProgramTree) → IsBuiltUp (types_of t) }
{}

/// So a type that has no parts takes one cell, an array the cells of its elements and a record those of its fields.
pub fn tables_are_sound()
    ensures counted { (t : ProgramTree) → AreCounted (types_of t) }
    ensures sound { (t : ProgramTree) → IsSound (types_of t) }
{}

/// A variable that is in view in a program, lawful or not, has a type that stands in the table and is not `synchronous`. Such a type that is no object type
/// holds values alone: it is simple, or an array or a record of such types.
pub fn types_of_variables_are_told()
    ensures variables { (t : ProgramTree) (view : List Level) (x : Text) (u : TypeId) (reference : Bool)
        → look (scopes_of t).scopes view x ≡ Some (Variable u reference) → IsOfVariables (types_of t) u }
    ensures values { (t : ProgramTree) (u : TypeId) → IsOfVariables (types_of t) u → is_object (types_of t) u ≡ false → IsValueType (types_of t) u }
{}

/// Each type of a lawful tree takes a cell: no record of it is without fields.
pub fn types_take_cells()
    ensures { (t : ProgramTree) (u : TypeId) → IsLawful (forget_program t) → 0 < cells_in (types_of t) u }
{}
