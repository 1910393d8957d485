//! The reading of expressions, designators and arguments.
//!
//! Each function reads one line of the grammar and promises exactly what the reader of that line gives, with the places
//! of the tokens, where so many levels are left for what it reads. It knows no names and no types.
#![tactic(auto)]

mod exprs;

pub use exprs::{actuals, boxed_expr, desig, desig_behind, expr};
