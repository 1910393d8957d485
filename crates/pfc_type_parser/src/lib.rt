//! The reading of names, constants, types, parameters, and the items of `const`, `type` and `var`.
//!
//! Each function reads one line of the grammar and promises exactly what the reader of that line gives, with the places
//! of the tokens, where so many levels are left for the types in it. It knows no scopes and no rules of types.
#![tactic(auto)]

mod constants;
mod items;
mod types;

pub use constants::{constant, names};
pub use items::{const_items, formals, type_items, var_items};
