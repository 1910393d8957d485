//! The reading of statements.
//!
//! Each function reads one line of the grammar and promises exactly what the reader of that line gives, with the places
//! of the tokens, where so many levels are left for the expressions and the statements in it. It knows no names and no
//! types.
#![tactic(auto)]

mod actions;
mod heads;
mod stmts;

pub use stmts::body_behind;
