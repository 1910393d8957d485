//! The predeclared names that are no types and no constants.

/// A predeclared name that is no type and no constant, in the order of the table of names.
/// `routine_of` of the definitions says what each is called with, what it gives and where it may be called.
#[derive(Clone, Copy, Debug, PartialEq, Eq)]
pub enum PredeclaredName {
    /// `any`, the one value of `synchronous`.
    Any,
    Abs,
    Sqr,
    Odd,
    Ord,
    Chr,
    Succ,
    Pred,
    Eof,
    Eoln,
    Empty,
    Clock,
    Random,
    Read,
    Readln,
    Write,
    Writeln,
    Initial,
    Wait,
    Signal,
    Delay,
    Resume,
    Sleep,
}
