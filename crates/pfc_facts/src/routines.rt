//! The predeclared functions and procedures.
ghost use Rattle.std.specs.Prelude.{◌≡◌};
ghost use Rattle.pfc_semantics.specs.Predeclared as predeclared;
ghost use Rattle.pfc_facts.specs.Views.{function_view, procedure_view};

use pfc_types::PredeclaredName;

/// A predeclared function.
#[derive(Clone, Copy, Debug, PartialEq, Eq)]
pub enum Function {
    Abs,
    Sqr,
    Odd,
    Ord,
    Chr,
    Succ,
    Pred,
    Eof,
    Eoln,
    Empty,
    Clock,
    Random,
    /// Any other predeclared name.
    NoFunction,
}

/// A predeclared procedure.
#[derive(Clone, Copy, Debug, PartialEq, Eq)]
pub enum Procedure {
    /// `read`, or `readln`, which skips the line.
    Reader(bool),
    /// `write`, or `writeln`, which ends the line.
    Writer(bool),
    Initial,
    Wait,
    Signal,
    Delay,
    Resume,
    Sleep,
    /// Any other predeclared name.
    NoProcedure,
}

/// The function that a predeclared name is.
pub fn function_of(k: PredeclaredName) -> Function
    ensures { function_view result ≡ predeclared.function_of k }
{
    match k {
        PredeclaredName::Abs => Function::Abs,
        PredeclaredName::Sqr => Function::Sqr,
        PredeclaredName::Odd => Function::Odd,
        PredeclaredName::Ord => Function::Ord,
        PredeclaredName::Chr => Function::Chr,
        PredeclaredName::Succ => Function::Succ,
        PredeclaredName::Pred => Function::Pred,
        PredeclaredName::Eof => Function::Eof,
        PredeclaredName::Eoln => Function::Eoln,
        PredeclaredName::Empty => Function::Empty,
        PredeclaredName::Clock => Function::Clock,
        PredeclaredName::Random => Function::Random,
        _ => Function::NoFunction,
    }
}

/// The procedure that a predeclared name is.
pub fn procedure_of(k: PredeclaredName) -> Procedure
    ensures { procedure_view result ≡ predeclared.procedure_of k }
{
    match k {
        PredeclaredName::Read => Procedure::Reader(false),
        PredeclaredName::Readln => Procedure::Reader(true),
        PredeclaredName::Write => Procedure::Writer(false),
        PredeclaredName::Writeln => Procedure::Writer(true),
        PredeclaredName::Initial => Procedure::Initial,
        PredeclaredName::Wait => Procedure::Wait,
        PredeclaredName::Signal => Procedure::Signal,
        PredeclaredName::Delay => Procedure::Delay,
        PredeclaredName::Resume => Procedure::Resume,
        PredeclaredName::Sleep => Procedure::Sleep,
        _ => Procedure::NoProcedure,
    }
}
