//! Laws of the definitions. Each function does nothing: its contract is the law.
ghost use Rattle.std.specs.Prelude.{◌≡◌, ◌+◌, List, length};
ghost use Rattle.pfc_tree.specs.Symbols.{Text};
ghost use Rattle.pfc_tree.specs.views.Parts.{tree_view};
ghost use Rattle.pfc_tree.specs.trees.Parts.{ProgramTree};
ghost use Rattle.pfc_types.specs.Blocks.{State};
ghost use Rattle.pfc_types.specs.Faults.{IsFirstOf, listed};
ghost use Rattle.pfc_types.specs.Faulty.{BeginsPredeclared, AreFaultyExactly, HoldSimpleConstants, AreWrittenExactly};
ghost use Rattle.pfc_types.specs.Scopes.{Level, found_in, look};
ghost use Rattle.pfc_types.specs.Visits.{AreCounted, visits};
ghost use Rattle.pfc_types.specs.Stops.{views, stops, broken_stops};
ghost use Rattle.pfc_types.specs.rules.Bodies.{parts_scopes};
ghost use Rattle.pfc_types.specs.rules.Expressions.{Env};
ghost use Rattle.pfc_types.specs.rules.FaultyNames.{is_faulty_found, stands_faulty};
ghost use Rattle.pfc_types.specs.rules.Statements.{body_scopes};
ghost use Rattle.pfc_types.specs.rules.Whole.{broken, first_fault, first_concurrency_fault, types_of, scopes_of, finished, broken_bodies};

use pfc_tree::Tree;

/// The first fault of a tree is the first of the list of all rules that are broken in it: its place comes first, and at
/// that place its code is the lowest; and there is none exactly where the list is empty.
pub fn first_fault_is_first(tree: &Tree)
    ensures { IsFirstOf 0 (broken (tree_view tree.now)) (first_fault (tree_view tree.now)) }
{}

/// The first fault of concurrency is the first of those in the same list whose codes are 401 or more.
pub fn first_concurrency_fault_is_first(tree: &Tree)
    ensures { IsFirstOf 401 (broken (tree_view tree.now)) (first_concurrency_fault (tree_view tree.now)) }
{}

/// An expression, like each of its parts, has no type exactly where a rule is broken in it or it uses a faulty name: one
/// in view whose own declaration has no type. So has a variable that stands alone, with its selectors. The table of
/// types has to begin with the predeclared ones, and that of each tree does. In the scopes of a tree a name is faulty
/// exactly where it stands for nothing that is known.
pub fn an_expression_is_faulty_exactly()
    ensures parts { (env : Env) → BeginsPredeclared env.state.forms → AreFaultyExactly env }
    ensures table { (t : ProgramTree) → BeginsPredeclared (types_of t) }
    ensures names { (t : ProgramTree) (view : List Level) (x : Text) →
        is_faulty_found (scopes_of t) (found_in (scopes_of t).scopes view x) ≡ stands_faulty (look (scopes_of t).scopes view x) }
{}

/// A constant, a type and a group of parameters, as they are written, have no value and no type exactly where a rule is
/// broken in them or a name in them is faulty. The rules that are broken in a type are those noted while it is made. The
/// constants in the scopes have to be of simple types, and those of each tree are; its scopes only grow.
pub fn a_type_is_faulty_exactly()
    ensures parts { (s : State) (view : List Level) → HoldSimpleConstants s.blocks.scopes → AreWrittenExactly s view }
    ensures constants { (t : ProgramTree) → HoldSimpleConstants (scopes_of t).scopes }
{}

/// The names in view at a body, counted over the finished scopes, are those that the scopes held when the declarations
/// before it had been made: at each body, guard and statement of an accept the two walks over a tree have the same view,
/// and each name is found alike over the finished scopes and over those that there were. The rules that the second walk
/// finds broken are those at its stops, the bodies and the guards. One scope is opened for the program, for each block in
/// it and for each accept.
pub fn names_in_view_are_counted()
    ensures views { (t : ProgramTree) → AreCounted (scopes_of t).scopes (visits t) (views (stops (finished t) t)) }
    ensures stops { (s : State) (t : ProgramTree) → listed (broken_bodies s t) ≡ broken_stops (stops s t) }
    ensures count { (t : ProgramTree) → length (scopes_of t).scopes ≡ 1 + parts_scopes t.parts + body_scopes t.body }
{}
