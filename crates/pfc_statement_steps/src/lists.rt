//! Lists: statements one behind another, and the arms of a `case`.
ghost use Rattle.std.specs.Prelude.{◌≡◌, ℕ, IfOk};
ghost use Rattle.pfc_tree.specs.views.Stmts.{arms_view, stmts_view};
ghost use Rattle.pfc_semantics.specs.Alternatives.{context};
ghost use Rattle.pfc_semantics.specs.Remainders.{Context};
ghost use Rattle.pfc_semantics.specs.Statements as statements;
ghost use Rattle.std.specs.Option.{option_copied};
ghost use Rattle.pfc_phrases.specs.Views.{env_view};
ghost use Rattle.pfc_program.specs.declared.tables.Tables.{Tables};
ghost use Rattle.pfc_pending.specs.Ahead.{ahead, step_ahead, on_rest};
ghost use Rattle.pfc_pending.specs.Texts.{stmt_at};
ghost use Rattle.pfc_pending.specs.Waiting.{Waiting, remainder_of};
ghost use Rattle.pfc_pending.specs.declared.at_hand.At.TheVariants as at;
ghost use Rattle.pfc_statement_steps.specs.Begins.{node_view};

use pfc_base::{Memory, RunFault};
use pfc_pending::{At, Deed, OneStmt, Pending, Step, Stmts};
use pfc_phrases::{Env, constant_value};
use pfc_program::behind_stmt;
use pfc_tree::{CaseArm, Constant, Stmt};

/// A statement of the text, None where there is none.
#[tactic(auto, using(crate::proofs::Left::nodes))]
pub(crate) fn node<'t>(s: OneStmt<'t>) -> Option<&'t Stmt>
    ensures { node_view (option_copied result) ≡ stmt_at s.entry }
{
    match s {
        OneStmt::Listed(list, i) => { if i < list.len() { Some(&list[i]) } else { None } }
        OneStmt::Alone(s) => Some(s),
    }
}

/// All statements of a list.
pub(crate) fn list<'t>(n: u32, list: &'t Vec<Stmt>) -> At<'t>
    ensures { (t : Tables) (c : Context) (w : Waiting) →
        ahead t c w result ≡ statements.from_stmts c.env n (stmts_view list.now.items) (remainder_of w) (on_rest c w) }
{
    At::Stmts(n, Stmts { list, from: 0 })
}

/// The first of some statements, over those behind it. Behind the last one nothing is kept.
#[tactic(auto, using(crate::proofs::Left::stmts))]
pub fn stmts<'t>(n: u32, ss: Stmts<'t>) -> Result<Step<'t>, Memory>
    ensures { IfOk result (λ step. (t : Tables) (c : Context) (w : Waiting) → step_ahead t c w step ≡ ahead t c w (at.Stmts n ss.entry)) }
{
    if ss.list.len() <= ss.from {
        return Ok(Step::On(At::Rest));
    }
    let first = &ss.list[ss.from];
    let here = OneStmt::Listed(ss.list, ss.from);
    let from = ss.from + 1;
    if from == ss.list.len() {
        return Ok(Step::On(At::Stmt(n, here)));
    }
    let next = behind_stmt(first, n)?;
    let behind = Stmts {
        list: ss.list,
        from,
    };
    Ok(Step::Under(Pending::Perform(next, behind), At::Stmt(n, here)))
}

/// Whether a label of a `case` is this value.
fn is_label(env: Env, v: i64, label: &Constant) -> bool
    ensures { result ≡ statements.is_label (env_view env.entry) v label.now }
{
    match constant_value(label, env.scopes, env.view) {
        Some(o) => o.value as i64 == v,
        None => false,
    }
}

/// Whether one of the labels of an arm is this value.
fn are_labels(env: Env, v: i64, labels: &[Constant]) -> bool
    ensures { result ≡ statements.are_labels (env_view env.entry) v labels.now }
{
    for label in labels {
        if is_label(env, v, label) {
            return true;
        }
    }
    false
}

/// The arm that has a value among its labels; fault 5 where none has. The next scope of the text has the number n.
pub(crate) fn arm<'t>(n: u32, v: i64, arms: &'t [CaseArm], env: Env) -> Result<Step<'t>, Memory>
    ensures { IfOk result (λ step. (t : Tables) (line : ℕ) (w : Waiting) → step_ahead t (context (env_view env.entry) line) w step ≡ statements.from_arms
        (context (env_view env.entry) line) n v (arms_view arms.now) (remainder_of w) (on_rest (context (env_view env.entry) line) w)) }
{
    let mut next = n;
    for arm in arms {
        if are_labels(env, v, &arm.labels) {
            return Ok(Step::On(At::Stmt(next, OneStmt::Alone(&arm.stmt))));
        }
        next = behind_stmt(&arm.stmt, next)?;
    }
    Ok(Step::On(At::Deed(Deed::Faults(RunFault::Case))))
}
