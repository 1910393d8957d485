//! What operators give of numbers, or the fault that they end in.
ghost use Rattle.std.specs.Prelude.{◌≡◌};
ghost use Rattle.pfc_semantics.specs.Operators as operators;

use pfc_base::{Place, RunFault};
use pfc_tree::{AddOp, MulOp, Relation, Sign};
use pfc_values::{both, difference, either, negative, product, quotient, remainder, sum, truth};

/// A sign before a number.
pub(crate) fn signed(sign: Option<(Sign, Place)>, n: i64) -> Result<i64, RunFault>
    ensures { result ≡ operators.signed sign n }
{
    match sign {
        None => Ok(n),
        Some((Sign::Plus, _place)) => Ok(n),
        Some((Sign::Minus, _place)) => negative(n),
    }
}

/// `+`, `-` or `or`.
pub(crate) fn added(op: AddOp, a: i64, b: i64) -> Result<i64, RunFault>
    ensures { result ≡ operators.added op a b }
{
    match op {
        AddOp::Add => sum(a, b),
        AddOp::Sub => difference(a, b),
        AddOp::Or => Ok(either(a, b)),
    }
}

/// `*`, `div`, `mod` or `and`.
pub(crate) fn multiplied(op: MulOp, a: i64, b: i64) -> Result<i64, RunFault>
    ensures { result ≡ operators.multiplied op a b }
{
    match op {
        MulOp::Mul => product(a, b),
        MulOp::Div => quotient(a, b),
        MulOp::Mod => remainder(a, b),
        MulOp::And => Ok(both(a, b)),
    }
}

/// Whether a relation holds.
fn holds(relation: Relation, a: i64, b: i64) -> bool
    ensures { result ≡ operators.holds relation a b }
{
    match relation {
        Relation::Eq => a == b,
        Relation::Ne => a != b,
        Relation::Lt => a < b,
        Relation::Le => a <= b,
        Relation::Gt => a > b,
        Relation::Ge => a >= b,
    }
}

/// The ordinal of whether a relation holds.
pub(crate) fn compared(relation: Relation, a: i64, b: i64) -> i64
    ensures { result ≡ operators.compared relation a b }
{
    truth(holds(relation, a, b))
}
