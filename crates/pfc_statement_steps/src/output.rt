//! The items of `write` and `writeln`.
ghost use Rattle.std.specs.Prelude.{◌≡◌, ℕ};
ghost use Rattle.pfc_tree.specs.trees.Exprs as trees;
ghost use Rattle.pfc_tree.specs.views.Exprs.{expr_view};
ghost use Rattle.pfc_types.specs.rules.Expressions.{Env as Known};
ghost use Rattle.pfc_semantics.specs.Alternatives.{context};
ghost use Rattle.pfc_semantics.specs.Statements as statements;
ghost use Rattle.pfc_phrases.specs.Views.{env_view};
ghost use Rattle.pfc_program.specs.declared.tables.Tables.{Tables};
ghost use Rattle.pfc_pending.specs.Ahead.{ahead, step_ahead};
ghost use Rattle.pfc_pending.specs.Waiting.{Waiting, remainder_of};
ghost use Rattle.pfc_pending.specs.declared.at_hand.At.TheVariants as at;

use pfc_facts::as_string;
use pfc_pending::{Actuals, At, Deed, Pending, Piece, Step};
use pfc_phrases::Env;
use pfc_sites::first;
use pfc_tree::{Actual, Expr};
use pfc_typing::expr_type;

/// The items that are left of a `write` with this line; a `writeln` has a newline behind them.
pub fn writes<'t>(items: Actuals<'t>, newline: bool, line: u32) -> Step<'t>
    ensures { (t : Tables) (env : Known) (w : Waiting) →
        step_ahead t (context env line) w result ≡ ahead t (context env line) w (at.Writes items.entry newline) }
{
    match first(items) {
        Some((item, behind)) => Step::Under(
            Pending::WriteOn(line, behind, newline),
            At::Item(item),
        ),
        None => {
            if newline {
                Step::On(At::Deed(Deed::Prints(Piece::Text(b"\n"), None)))
            } else {
                Step::On(At::Rest)
            }
        }
    }
}

/// One item, perhaps with its width.
pub fn item<'t>(a: &'t Actual, env: Env) -> Step<'t>
    ensures { (t : Tables) (line : ℕ) (w : Waiting) →
        step_ahead t (context (env_view env.entry) line) w result ≡ ahead t (context (env_view env.entry) line) w (at.Item a.entry) }
{
    match &a.width {
        None => plain_item(&a.value, env),
        Some(width) => wide_item(&a.value, width, env),
    }
}

#[tactic(auto, using(crate::proofs::Rules::output))]
fn plain_item<'t>(e: &'t Expr, env: Env) -> Step<'t>
    ensures { (t : Tables) (line : ℕ) (w : Waiting) → step_ahead t (context (env_view env.entry) line) w result ≡ statements.from_item
        (context (env_view env.entry) line) (trees.actual (expr_view e.now)) (remainder_of w) }
{
    match as_string(e) {
        Some(text) => Step::On(At::Deed(Deed::Prints(Piece::Text(text.bytes()), None))),
        None => Step::Under(Pending::Show(expr_type(e, env)), At::Expr(e)),
    }
}

/// The value comes before its width.
#[tactic(auto, using(crate::proofs::Rules::output))]
fn wide_item<'t>(e: &'t Expr, width: &'t Expr, env: Env) -> Step<'t>
    ensures { (t : Tables) (line : ℕ) (w : Waiting) → step_ahead t (context (env_view env.entry) line) w result ≡ statements.from_item
        (context (env_view env.entry) line) (trees.actual_width (expr_view e.now) (expr_view width.now)) (remainder_of w) }
{
    match as_string(e) {
        Some(text) => Step::Under(Pending::Pad(Piece::Text(text.bytes())), At::Expr(width)),
        None => Step::Under(Pending::ShowWide(expr_type(e, env), width), At::Expr(e)),
    }
}
