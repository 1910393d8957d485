//! What the operators and functions of integers give. An answer that does not fit in 32 bits is an overflow.
ghost use Rattle.std.specs.Prelude.{◌≡◌, None, Err, IfSome};
ghost use Rattle.pfc_base.specs.declared.faults.RunFault.TheVariants.{Overflow};
ghost use Rattle.pfc_values.specs.Numbers.{fitting, negative_of, sum_of, difference_of, product_of, quotient_of, remainder_of, magnitude_of, square_of, is_odd};

use pfc_base::RunFault;

/// An integer of 32 bits, or overflow.
fn fitting(n: i64) -> Result<i64, RunFault>
    ensures { result ≡ fitting n }
{
    if (-2_147_483_648..=2_147_483_647).contains(&n) {
        Ok(n)
    } else {
        Err(RunFault::Overflow)
    }
}

/// What does not fit in 64 bits does not fit in 32.
fn checked(n: Option<i64>) -> Result<i64, RunFault>
    ensures some { IfSome n (λ m. result ≡ fitting m) }
    ensures none { n ≡ None → result ≡ Err Overflow }
{
    fitting(n.ok_or(RunFault::Overflow)?)
}

/// `-a`
pub fn negative(a: i64) -> Result<i64, RunFault>
    ensures { result ≡ negative_of a }
{
    checked(a.checked_neg())
}

/// `a + b`
pub fn sum(a: i64, b: i64) -> Result<i64, RunFault>
    ensures { result ≡ sum_of a b }
{
    checked(a.checked_add(b))
}

/// `a - b`
pub fn difference(a: i64, b: i64) -> Result<i64, RunFault>
    ensures { result ≡ difference_of a b }
{
    checked(a.checked_sub(b))
}

/// `a * b`
pub fn product(a: i64, b: i64) -> Result<i64, RunFault>
    ensures { result ≡ product_of a b }
{
    checked(a.checked_mul(b))
}

/// `a div b`, truncated toward zero. A divisor of 0 is a division by zero.
pub fn quotient(a: i64, b: i64) -> Result<i64, RunFault>
    ensures { result ≡ quotient_of a b }
{
    if b == 0 {
        return Err(RunFault::Division);
    }
    match a.checked_div(b) {
        Some(n) => fitting(n),
        None => Err(RunFault::Overflow),
    }
}

/// `a mod b`, with the sign of `a`. A divisor of 0 is a division by zero.
pub fn remainder(a: i64, b: i64) -> Result<i64, RunFault>
    ensures { result ≡ remainder_of a b }
{
    match b {
        0 => Err(RunFault::Division),
        _ => Ok(a.wrapping_rem(b)),
    }
}

/// `abs(a)`
pub fn magnitude(a: i64) -> Result<i64, RunFault>
    ensures { result ≡ magnitude_of a }
{
    if a < 0 { negative(a) } else { fitting(a) }
}

/// `sqr(a)`
pub fn square(a: i64) -> Result<i64, RunFault>
    ensures { result ≡ square_of a }
{
    product(a, a)
}

/// `odd(a)`: 1 where `a` is odd, and 0 where it is even.
pub fn odd(a: i64) -> i64
    ensures { result ≡ is_odd a }
{
    if a % 2 == 0 { 0 } else { 1 }
}
