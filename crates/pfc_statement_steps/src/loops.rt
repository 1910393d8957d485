//! Statements that are under way: the part of one that comes first, over what of it comes behind that.
ghost use Rattle.std.specs.Prelude.{◌≡◌, Bool, Option, option_map};
ghost use Rattle.std.specs.declared.boxed.Box.{Box};
ghost use Rattle.std.specs.declared.alloc.Global.{Global as Heap};
ghost use Rattle.pfc_tree.specs.trees.Exprs.{ExprTree};
ghost use Rattle.pfc_tree.specs.trees.Stmts as trees;
ghost use Rattle.pfc_tree.specs.trees.Stmts.{StmtTree, ArmTrees};
ghost use Rattle.pfc_tree.specs.views.Exprs.{expr_view};
ghost use Rattle.pfc_tree.specs.views.Stmts.{if_of, repeat_of, stmts_view};
ghost use Rattle.pfc_base.specs.declared.places.Place.{Place};
ghost use Rattle.pfc_types.specs.rules.Expressions.{Env as Known};
ghost use Rattle.pfc_semantics.specs.Statements.{from_stmt};
ghost use Rattle.pfc_semantics.specs.Rewriting.{from_remainder};
ghost use Rattle.pfc_phrases.specs.Views.{env_view};
ghost use Rattle.pfc_program.specs.declared.tables.Tables.{Tables};
ghost use Rattle.pfc_pending.specs.Ahead.{begun_ahead};
ghost use Rattle.pfc_pending.specs.Texts.{stmt_at};
ghost use Rattle.pfc_pending.specs.Waiting.{Waiting, remainder_of};

use crate::lists::list;
use pfc_base::{Name, Place};
use pfc_pending::{At, Begun, Counter, OneStmt, Pending, Point, Step};
use pfc_sites::Site;
use pfc_tree::{Expr, Stmt};

/// `if e then s else t`, or without the second: the test.
#[tactic(auto, using(crate::proofs::Rules::tests))]
pub(crate) fn begin_if<'t>(n: u32, s: OneStmt<'t>, e: &'t Expr, place: Place) -> Begun<'t>
    ensures { (t : Tables) (env : Known) (w : Waiting) (first : StmtTree) (other : Option (Box StmtTree Heap)) →
        stmt_at s.entry ≡ if_of (expr_view e.now) first other place → begun_ahead t env w result ≡ from_stmt env n (if_of (expr_view e.now) first other place)
        (remainder_of w) (from_remainder env (remainder_of w)) }
{
    Begun {
        line: place.line,
        step: Step::Under(Pending::Within(n, s, Point::Choose), At::Expr(e)),
    }
}

/// `case e of .. end`: the value.
#[tactic(auto, using(crate::proofs::Rules::tests))]
pub(crate) fn begin_case<'t>(n: u32, s: OneStmt<'t>, e: &'t Expr, place: Place) -> Begun<'t>
    ensures { (t : Tables) (env : Known) (w : Waiting) (arms : ArmTrees) (last : Bool) → stmt_at s.entry ≡ trees.case_of (expr_view e.now) arms last place →
        begun_ahead t env w result ≡ from_stmt env n (trees.case_of (expr_view e.now) arms last place) (remainder_of w) (from_remainder env (remainder_of w)) }
{
    Begun {
        line: place.line,
        step: Step::Under(Pending::Within(n, s, Point::ChooseArm), At::Expr(e)),
    }
}

/// `while e do s`: the test.
#[tactic(auto, using(crate::proofs::Rules::tests))]
pub(crate) fn begin_while<'t>(n: u32, s: OneStmt<'t>, e: &'t Expr, place: Place) -> Begun<'t>
    ensures { (t : Tables) (env : Known) (w : Waiting) (pass : StmtTree) → stmt_at s.entry ≡ trees.while_do (expr_view e.now) pass place →
        begun_ahead t env w result ≡ from_stmt env n (trees.while_do (expr_view e.now) pass place) (remainder_of w) (from_remainder env (remainder_of w)) }
{
    Begun {
        line: place.line,
        step: Step::Under(Pending::Within(n, s, Point::WhileTrue), At::Expr(e)),
    }
}

/// `repeat ss until e`: the statements, and behind them the test; or without a test the way back.
pub(crate) fn begin_repeat<'t>(
    n: u32,
    s: OneStmt<'t>,
    ss: &'t Vec<Stmt>,
    test: &'t Option<Box<Expr>>,
    place: Place,
) -> Begun<'t>
    ensures { (t : Tables) (env : Known) (w : Waiting)
        → stmt_at s.entry ≡ repeat_of (stmts_view ss.now.items) (option_map (λ e. expr_view e.value) test.now) place →
        begun_ahead t env w result ≡ from_stmt env n (repeat_of (stmts_view ss.now.items) (option_map (λ e. expr_view e.value) test.now) place) (remainder_of w)
        (from_remainder env (remainder_of w)) }
{
    match test {
        Some(e) => begin_until(n, s, ss, e, place),
        None => begin_forever(n, s, ss, place),
    }
}

#[tactic(auto, using(crate::proofs::Rules::tests))]
fn begin_until<'t>(n: u32, s: OneStmt<'t>, ss: &'t Vec<Stmt>, e: &Expr, place: Place) -> Begun<'t>
    ensures { (t : Tables) (env : Known) (w : Waiting) → stmt_at s.entry ≡ trees.repeat_until (stmts_view ss.now.items) (expr_view e.now) place →
        begun_ahead t env w result ≡ from_stmt env n (trees.repeat_until (stmts_view ss.now.items) (expr_view e.now) place) (remainder_of w)
        (from_remainder env (remainder_of w)) }
{
    Begun {
        line: place.line,
        step: Step::Under(Pending::Within(n, s, Point::Until), list(n, ss)),
    }
}

#[tactic(auto, using(crate::proofs::Rules::tests))]
fn begin_forever<'t>(n: u32, s: OneStmt<'t>, ss: &'t Vec<Stmt>, place: Place) -> Begun<'t>
    ensures { (t : Tables) (env : Known) (w : Waiting) → stmt_at s.entry ≡ trees.repeat_forever (stmts_view ss.now.items) place →
        begun_ahead t env w result ≡ from_stmt env n (trees.repeat_forever (stmts_view ss.now.items) place) (remainder_of w)
        (from_remainder env (remainder_of w)) }
{
    Begun {
        line: place.line,
        step: Step::Under(Pending::Within(n, s, Point::Turn), list(n, ss)),
    }
}

/// `for x := a to b do s`: the first bound. Both are evaluated once, and kept.
#[tactic(auto, using(crate::proofs::Rules::counting))]
pub(crate) fn begin_for<'t>(
    n: u32,
    s: OneStmt<'t>,
    x: &'t Name,
    a: &'t Expr,
    place: Place,
    site: Site<'t, '_>,
) -> Begun<'t>
    ensures { (t : Tables) (w : Waiting) (down : Bool) (b : ExprTree) (pass : StmtTree) (q : Place) →
        stmt_at s.entry ≡ trees.for_do x.now (expr_view a.now) down b pass place q →
        begun_ahead t (env_view site.entry.env) w result ≡ from_stmt (env_view site.entry.env) n (trees.for_do x.now (expr_view a.now) down b pass place q)
        (remainder_of w) (from_remainder (env_view site.entry.env) (remainder_of w)) }
{
    let variable = site.variable(x);
    let at = Counter {
        scope: variable.scope,
        variable: variable.variable,
    };
    Begun {
        line: place.line,
        step: Step::Under(Pending::Within(n, s, Point::CountFrom(at)), At::Expr(a)),
    }
}
