//! Truth values: false is 0 and true is 1. Every other ordinal counts as 1.
ghost use Rattle.std.specs.Prelude.{◌≡◌};
ghost use Rattle.pfc_values.specs.Numbers.{truth, is_true, inverse_of, both_of, either_of};

/// The ordinal of a truth value.
pub fn truth(b: bool) -> i64
    ensures { result ≡ truth b }
{
    if b { 1 } else { 0 }
}

/// An ordinal counts as true: it is not 0.
pub fn is_true(n: i64) -> bool
    ensures { result ≡ is_true n }
{
    n != 0
}

/// `not a`
pub fn inverse(a: i64) -> i64
    ensures { result ≡ inverse_of a }
{
    truth(!is_true(a))
}

/// `a and b`
pub fn both(a: i64, b: i64) -> i64
    ensures { result ≡ both_of a b }
{
    truth(is_true(a) && is_true(b))
}

/// `a or b`
pub fn either(a: i64, b: i64) -> i64
    ensures { result ≡ either_of a b }
{
    truth(is_true(a) || is_true(b))
}
