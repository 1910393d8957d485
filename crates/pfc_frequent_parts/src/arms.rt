//! The arms of a `case`.
ghost use Rattle.std.specs.Prelude.{◌≡◌, ℕ, IfSome};
ghost use Rattle.pfc_tree.specs.views.Stmts.{arms_view};
ghost use Rattle.pfc_semantics.specs.Alternatives.{context};
ghost use Rattle.pfc_semantics.specs.Remainders.{Remainder};
ghost use Rattle.pfc_semantics.specs.Rewriting.{from_remainder};
ghost use Rattle.pfc_semantics.specs.Statements as statements;
ghost use Rattle.pfc_phrases.specs.Views.{env_view};
ghost use Rattle.pfc_frequent_parts.specs.Parts.{arm_ahead};

use pfc_base::Memory;
use pfc_pending::OneStmt;
use pfc_phrases::{Env, constant_value};
use pfc_program::behind_stmt;
use pfc_tree::{CaseArm, Constant};

/// The statement of an arm, before which the next scope of the text has the number n.
#[derive(Clone, Copy)]
pub struct Arm<'t> {
    pub n: u32,
    pub s: OneStmt<'t>,
}

/// The arm that has a value among its labels. The next scope of the text has the number n. None where no arm has it, and where a number has
/// more than 32 bits.
pub fn arm_with<'t>(n: u32, v: i64, arms: &'t [CaseArm], env: Env) -> Option<Arm<'t>>
    ensures { IfSome result (λ x. (line : ℕ) (k : Remainder) → let c = context (env_view env.entry) line in
        arm_ahead c x k ≡ statements.from_arms c n v (arms_view arms.now) k (from_remainder c.env k)) }
{
    let mut next = n;
    for arm in arms {
        if are_labels(env, v, &arm.labels) {
            return Some(Arm {
                n: next,
                s: OneStmt::Alone(&arm.stmt),
            });
        }
        match behind_stmt(&arm.stmt, next) {
            Ok(behind) => next = behind,
            Err(Memory) => return None,
        }
    }
    None
}

/// Whether one of the labels of an arm is this value.
fn are_labels(env: Env, v: i64, labels: &[Constant]) -> bool
    ensures { result ≡ statements.are_labels (env_view env.entry) v labels.now }
{
    for label in labels {
        if is_label(env, v, label) {
            return true;
        }
    }
    false
}

/// Whether a label of a `case` is this value.
#[inline(always)]
fn is_label(env: Env, v: i64, label: &Constant) -> bool
    ensures { result ≡ statements.is_label (env_view env.entry) v label.now }
{
    match constant_value(label, env.scopes, env.view) {
        Some(o) => o.value as i64 == v,
        None => false,
    }
}
