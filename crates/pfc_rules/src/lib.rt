//! The static rules of statements and bodies.
//!
//! It promises the first broken rule of a tree whose declarations are finished, among all rules or among those of
//! concurrency, exactly where there is one. It takes no memory. It makes no declaration: the table of types and the scopes are
//! given, with the rules that were found broken in the declarations. How the walk counts the names in view (`passing`) and what it
//! says of the tree around a body (`around`) serve other walks over finished declarations too.
#![tactic(auto)]

pub mod around;
mod assignments;
mod bodies;
mod communication;
mod first;
mod heads;
pub mod passing;
mod selects;
mod spreads;
mod statements;

pub use first::{concurrency_fault, first_broken};
