//! Ordinals: the char with an ordinal, and the neighbours of a value in its type.
ghost use Rattle.std.specs.Prelude.{◌≡◌};
ghost use Rattle.pfc_values.specs.Numbers.{char_of, least, greatest, next_of, before_of};

use crate::Simple;
use pfc_base::RunFault;

/// `chr(n)`: the char with the ordinal `n`. It is out of range where `n` is not from 0 to 255.
pub fn char_at(n: i64) -> Result<i64, RunFault>
    ensures { result ≡ char_of n }
{
    if (0..=255).contains(&n) {
        Ok(n)
    } else {
        Err(RunFault::Range)
    }
}

/// `succ(n)`: the next value of a type. Behind its last it is out of range.
pub fn next_value(t: Simple, n: i64) -> Result<i64, RunFault>
    ensures { result ≡ next_of t n }
{
    if n < greatest(t) {
        Ok(n + 1)
    } else {
        Err(RunFault::Range)
    }
}

/// `pred(n)`: the value before. Before the first value of a type it is out of range.
pub fn value_before(t: Simple, n: i64) -> Result<i64, RunFault>
    ensures { result ≡ before_of t n }
{
    if n > least(t) {
        Ok(n - 1)
    } else {
        Err(RunFault::Range)
    }
}

/// The first value of a type.
fn least(t: Simple) -> i64
    ensures { result ≡ least t }
{
    match t {
        Simple::Integer => -2_147_483_648,
        Simple::Boolean | Simple::Char => 0,
    }
}

/// The last value of a type.
fn greatest(t: Simple) -> i64
    ensures { result ≡ greatest t }
{
    match t {
        Simple::Integer => 2_147_483_647,
        Simple::Boolean => 1,
        Simple::Char => 255,
    }
}
