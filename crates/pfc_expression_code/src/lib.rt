//! The code of expressions, of variables and of arguments.
//!
//! It promises that the code of a phrase is put behind all that is there, word for word as the definition of the image has it, and that
//! `Full` comes only where that is more than a program may have. It asks no static rule, and puts no jump.
#![tactic(auto)]

mod coder;
mod exprs;
mod parts;
mod phrases;
mod single;
mod ways;
mod words;

pub use coder::Coder;
pub use parts::type_cells;
