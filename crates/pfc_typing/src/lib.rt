//! The types of expressions, of variables and of arguments.
//!
//! It promises that each phrase gets the type that the definitions give it, by one walk over the phrase that asks no rule.
//! It takes no memory, refuses nothing, and knows no statement and no declaration.
#![tactic(auto)]

mod exprs;
mod operators;

pub use exprs::{arguments, arguments_fit, desig_type, expr_type, first_type, selected_type};
pub use operators::{
    argument_fits, inverse_type, literal_type, name_type, operated_type, related_type, signed_type,
};
