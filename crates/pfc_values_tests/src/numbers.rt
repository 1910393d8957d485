//! Operators and functions at the ends of their types.

use pfc_base::RunFault;
use pfc_base::RunFault::{Division, Overflow, Range};
use pfc_values::{
    Simple, both, char_at, difference, either, inverse, is_true, magnitude, negative, next_value,
    odd, product, quotient, remainder, square, sum, truth, value_before,
};

/// The least and the greatest integer.
const MIN: i64 = -2_147_483_648;

const MAX: i64 = 2_147_483_647;

/// A call with its operands. A boolean is 0 or 1, and a type is its number.
#[derive(Clone, Copy)]
enum Call {
    Sum(i64, i64),
    Difference(i64, i64),
    Product(i64, i64),
    Quotient(i64, i64),
    Remainder(i64, i64),
    Square(i64),
    Negative(i64),
    Magnitude(i64),
    Odd(i64),
    Both(i64, i64),
    Either(i64, i64),
    Inverse(i64),
    Truth(bool),
    IsTrue(i64),
    Before(Simple, i64),
    Next(Simple, i64),
    CharAt(i64),
    Type(u32),
}

use Call::*;

/// What an operator or a function gives, or its fault.
type Given = Result<i64, RunFault>;

fn number_of(t: Simple) -> i64 {
    match t {
        Simple::Integer => 0,
        Simple::Boolean => 1,
        Simple::Char => 2,
    }
}

fn answer(call: Call) -> Given {
    match call {
        Sum(a, b) => sum(a, b),
        Difference(a, b) => difference(a, b),
        Product(a, b) => product(a, b),
        Quotient(a, b) => quotient(a, b),
        Remainder(a, b) => remainder(a, b),
        Square(a) => square(a),
        Negative(a) => negative(a),
        Magnitude(a) => magnitude(a),
        Odd(a) => Ok(odd(a)),
        Both(a, b) => Ok(both(a, b)),
        Either(a, b) => Ok(either(a, b)),
        Inverse(a) => Ok(inverse(a)),
        Truth(b) => Ok(truth(b)),
        IsTrue(a) => Ok(is_true(a) as i64),
        Before(t, n) => value_before(t, n),
        Next(t, n) => next_value(t, n),
        CharAt(n) => char_at(n),
        Type(k) => Ok(number_of(Simple::of(k))),
    }
}

static CALLS: [(Call, Given); 90] = [
    (Sum(2, -3), Ok(-1)),
    (Sum(MAX, 0), Ok(MAX)),
    (Sum(MAX, 1), Err(Overflow)),
    (Sum(MIN, -1), Err(Overflow)),
    (Sum(MIN, MAX), Ok(-1)),
    (Difference(2, 3), Ok(-1)),
    (Difference(-1, MAX), Ok(MIN)),
    (Difference(-2, MAX), Err(Overflow)),
    (Difference(0, MIN), Err(Overflow)),
    (Difference(-1, MIN), Ok(MAX)),
    (Product(-3, 4), Ok(-12)),
    (Product(65536, 32767), Ok(2_147_418_112)),
    (Product(65536, 32768), Err(Overflow)),
    (Product(65536, -32768), Ok(MIN)),
    (Product(MIN, -1), Err(Overflow)),
    (Square(-3), Ok(9)),
    (Square(46340), Ok(2_147_395_600)),
    (Square(-46340), Ok(2_147_395_600)),
    (Square(46341), Err(Overflow)),
    (Square(MIN), Err(Overflow)),
    (Quotient(7, 2), Ok(3)),
    (Quotient(-7, 2), Ok(-3)),
    (Quotient(7, -2), Ok(-3)),
    (Quotient(-7, -2), Ok(3)),
    (Quotient(MIN, 1), Ok(MIN)),
    (Quotient(MIN, -1), Err(Overflow)),
    (Quotient(MAX, -1), Ok(-MAX)),
    (Quotient(5, 0), Err(Division)),
    (Quotient(0, 0), Err(Division)),
    (Remainder(7, 2), Ok(1)),
    (Remainder(-7, 2), Ok(-1)),
    (Remainder(7, -2), Ok(1)),
    (Remainder(-7, -2), Ok(-1)),
    (Remainder(MIN, 1), Ok(0)),
    (Remainder(MIN, -1), Ok(0)),
    (Remainder(MAX, -1), Ok(0)),
    (Remainder(5, 0), Err(Division)),
    (Remainder(0, 0), Err(Division)),
    (Negative(0), Ok(0)),
    (Negative(7), Ok(-7)),
    (Negative(-7), Ok(7)),
    (Negative(MAX), Ok(-MAX)),
    (Negative(MIN), Err(Overflow)),
    (Magnitude(0), Ok(0)),
    (Magnitude(7), Ok(7)),
    (Magnitude(-7), Ok(7)),
    (Magnitude(MAX), Ok(MAX)),
    (Magnitude(MIN), Err(Overflow)),
    (Odd(0), Ok(0)),
    (Odd(7), Ok(1)),
    (Odd(-7), Ok(1)),
    (Odd(MAX), Ok(1)),
    (Odd(MIN), Ok(0)),
    (Both(0, 0), Ok(0)),
    (Both(0, 1), Ok(0)),
    (Both(1, 0), Ok(0)),
    (Both(1, 1), Ok(1)),
    (Both(2, -1), Ok(1)),
    (Either(0, 0), Ok(0)),
    (Either(0, 1), Ok(1)),
    (Either(1, 0), Ok(1)),
    (Either(1, 1), Ok(1)),
    (Either(2, -1), Ok(1)),
    (Inverse(0), Ok(1)),
    (Inverse(1), Ok(0)),
    (Inverse(2), Ok(0)),
    (Truth(false), Ok(0)),
    (Truth(true), Ok(1)),
    (IsTrue(0), Ok(0)),
    (IsTrue(-1), Ok(1)),
    (Before(Simple::Integer, MIN), Err(Range)),
    (Before(Simple::Integer, MAX), Ok(MAX - 1)),
    (Before(Simple::Boolean, 0), Err(Range)),
    (Before(Simple::Boolean, 1), Ok(0)),
    (Before(Simple::Char, 0), Err(Range)),
    (Before(Simple::Char, 255), Ok(254)),
    (Next(Simple::Integer, MIN), Ok(1 + MIN)),
    (Next(Simple::Integer, MAX), Err(Range)),
    (Next(Simple::Boolean, 0), Ok(1)),
    (Next(Simple::Boolean, 1), Err(Range)),
    (Next(Simple::Char, 0), Ok(1)),
    (Next(Simple::Char, 255), Err(Range)),
    (CharAt(-1), Err(Range)),
    (CharAt(0), Ok(0)),
    (CharAt(255), Ok(255)),
    (CharAt(256), Err(Range)),
    (Type(0), Ok(0)),
    (Type(1), Ok(1)),
    (Type(2), Ok(2)),
    (Type(u32::MAX), Ok(2)),
];

#[test]
fn operators_and_functions(rt: HostRuntime) {
    for (at, (call, given)) in CALLS.iter().enumerate() {
        assert!(rt; answer(*call) == *given, "case {at}");
    }
}
