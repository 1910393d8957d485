//! The laws. Each function does nothing; its contract is the law.
ghost use Rattle.std.specs.Prelude.{ℕ, ◌≡◌, ℤ, false, List, Option};
ghost use Rattle.pfc_tree.specs.trees.Exprs.{ExprTree};
ghost use Rattle.pfc_tree.specs.trees.Stmts.{StmtTree, StmtTrees};
ghost use Rattle.pfc_types.specs.Types.{Forms};
ghost use Rattle.pfc_types.specs.declared.types.TypeId.{TypeId};
ghost use Rattle.pfc_types.specs.rules.Expressions.{Env};
ghost use Rattle.pfc_semantics.specs.Values.{Value};
ghost use Rattle.pfc_semantics.specs.Displays.{Spot};
ghost use Rattle.pfc_semantics.specs.Programs.{Block};
ghost use Rattle.pfc_semantics.specs.Remainders.{Context, Remainder, AwaitsValue, Action};
ghost use Rattle.pfc_translation.specs.Sites.{Site};
ghost use Rattle.pfc_translation.specs.Expressions.{expr_code};
ghost use Rattle.pfc_translation.specs.Statements.{stmt_code, stmts_code};
ghost use Rattle.pfc_standing_code.specs.Shapes.{shape_of, IsSound, IsOf};
ghost use Rattle.pfc_standing_code.specs.ValueTypes.{IsValueType};
ghost use Rattle.pfc_standing_code.specs.Settings.{View, Setting, of_own, AreOver, with_accept};
ghost use Rattle.pfc_standing_code.specs.Sizes.{IsSized};
ghost use Rattle.pfc_standing_code.specs.Words.{IsWordAt, IsChecked};
ghost use Rattle.pfc_standing_code.specs.Effects.{Arm};
ghost use Rattle.pfc_standing_code.specs.Performs.{IsCheckedFor, Performs};
ghost use Rattle.pfc_standing_code.specs.Awaits.{TakesValue};
ghost use Rattle.pfc_standing_code.specs.Following.{Arrived, may_scan};

/// The code of an expression and of statements has as many instructions as it says, wherever it stands.
pub fn code_has_its_size()
    ensures expressions { (s : Site) (e : ExprTree) → IsSized (expr_code s e) }
    ensures statement { (s : Site) (n : ℕ) (t : StmtTree) → IsSized (stmt_code s n t) }
    ensures statements { (s : Site) (n : ℕ) (ts : StmtTrees) → IsSized (stmts_code s n ts) }
{}

/// Where the names in view are known, so is what any remainder asks of them.
pub fn names_are_enough()
    ensures { (g : Setting) (b : Block) (env : Env) (k : Remainder) → IsChecked g b env → IsCheckedFor g b env k }
{}

/// A spot has one type, and its part one address.
pub fn spots_have_one_word()
    ensures { (view : View) (s : Site) (v : Spot) (t u : Option TypeId) (w y : ℤ) → IsWordAt view s v t w → IsWordAt view s v u y → (t ≡ u) × (w ≡ y) }
{}

/// Names that are known stay so where one more accept is open, whoever called.
pub fn names_stay_known()
    ensures { (g : Setting) (b : Block) (env : Env) (i caller : ℕ) → IsChecked g b env → IsChecked (with_accept g i caller) b env }
{}

/// A value that the code holds as one of a type has a type without objects.
pub fn values_hold_no_object()
    ensures { (forms : Forms) (t : TypeId) (v : Value) → IsSound forms → IsOf forms t v → IsValueType forms t }
{}

/// What code awaits as a value of a type has a type without objects, so a variable is read only where it has none in it.
pub fn awaited_values_hold_no_object()
    ensures { (g : Setting) (b : Block) (x : Context) (at : ℕ) (ops : List ℤ) (arms : List Arm) (t : TypeId) (u : AwaitsValue)
        → TakesValue g b x at ops arms (shape_of t) u → IsValueType g.program.state.forms t }
{}

/// A process that is in a scan does nothing but read, for the guard of another, fault there, or go on with the scan.
pub fn only_guards_are_tried()
    ensures { (g : Setting) (at : ℕ) (ops : List ℤ) (arms : List Arm) (n : Action) → Arrived g at ops arms n → may_scan n ≡ false → g.trial ≡ of_own }
{}

/// Whatever is left of a body is performed over the operands of the callers.
pub fn callers_operands_are_kept()
    ensures { (g : Setting) (b : Block) (env : Env) (at : ℕ) (ops : List ℤ) (arms : List Arm) (k : Remainder) → Performs g b env at ops arms k
        → AreOver g ops }
{}
