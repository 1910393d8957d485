//! The code of statements.
//!
//! It promises that the code of each statement is put behind all that is there, word for word as the definition of the image has it, with
//! the strings that it writes and the most alternatives of one select in it, and that `Full` comes only where that is more than a program
//! may have. It asks no static rule. It does not know how a phrase, a call or an alternative is put.
#![tactic(auto)]

mod accepts;
mod cases;
mod jumps;
mod leaves;
mod marks;
mod positions;
mod statements;

pub use statements::stmts;
