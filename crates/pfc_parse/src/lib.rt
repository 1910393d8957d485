//! The parser: the tree that tokens write, with its places, or their first syntax fault.
//!
//! `parse` gives exactly the tree of the tokens, or the syntax fault of the grammar with its place. Each function below
//! it reads one line of the grammar and gives exactly what the reader of that line gives; those of expressions, types
//! and statements stand in crates of their own. It knows no names, no types and no rules of them.
#![tactic(auto)]

mod fault;
mod parts;
mod program;

pub use fault::SyntaxFault;
pub use program::parse;
