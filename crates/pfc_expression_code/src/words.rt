//! The instructions of operators.
ghost use Rattle.std.specs.Prelude.{◌≡◌};
ghost use Rattle.pfc_translation.specs.Expressions as expressions;

use pfc_code::Instr;
use pfc_tree::{AddOp, MulOp, Relation};
use pfc_values::Simple;

/// The instruction of a relation.
pub(crate) fn relation_instr(r: Relation) -> Instr
    ensures { result ≡ expressions.relation_instr r }
{
    match r {
        Relation::Eq => Instr::EQ,
        Relation::Ne => Instr::NE,
        Relation::Lt => Instr::LT,
        Relation::Le => Instr::LE,
        Relation::Gt => Instr::GT,
        Relation::Ge => Instr::GE,
    }
}

/// The instruction of `+`, `-` or `or`.
pub(crate) fn add_instr(op: AddOp) -> Instr
    ensures { result ≡ expressions.add_instr op }
{
    match op {
        AddOp::Add => Instr::ADD,
        AddOp::Sub => Instr::SUB,
        AddOp::Or => Instr::OR,
    }
}

/// The instruction of `*`, `div`, `mod` or `and`.
pub(crate) fn multiply_instr(op: MulOp) -> Instr
    ensures { result ≡ expressions.multiply_instr op }
{
    match op {
        MulOp::Mul => Instr::MUL,
        MulOp::Div => Instr::DIV,
        MulOp::Mod => Instr::MOD,
        MulOp::And => Instr::AND,
    }
}

/// The number by which an instruction names a simple type.
pub(crate) fn simple_number(t: Simple) -> u32
    ensures { result ≡ expressions.simple_number t }
{
    match t {
        Simple::Integer => 0,
        Simple::Boolean => 1,
        Simple::Char => 2,
    }
}
