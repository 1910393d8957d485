//! Constants, names, designators, expressions, arguments and calls under the static rules.
//!
//! It promises that each phrase gets the type that the definitions give it, and that the first broken rule that was found
//! so far takes in those that are broken in the phrase. It takes no memory, refuses nothing, and knows no statement but a
//! call, and no declaration.
#![tactic(auto)]

mod arguments;
mod best;
mod calls;
mod constants;
mod env;
mod exprs;
mod items;
mod lending;
mod members;
mod names;
mod operators;
mod places;
mod routines;
mod types;
mod uses;

pub(crate) use arguments::refuse;
pub use arguments::{asked, asked_formals, unasked};
pub use best::{Best, fault_unless};
pub use calls::{call, requeue};
pub use constants::{
    Extent, Ordinal, are_bounds, bounds_fault, char_value, constant, constant_fault,
    constant_place, constant_value, extent_of, is_char, named_constant, range_extent, sign_fits,
    signed_value,
};
pub use env::{Env, find_in};
pub use exprs::{desig, expr, selectors};
pub use lending::{is_variable, no_actual, no_selector};
pub use members::{member, only_field, process_of, split_field};
pub use names::{
    NameKind, fits, meaning_of, name_fault, named_type, type_meaning, type_name_fault,
    variable_meaning, variable_type,
};
pub use operators::{add_operand, element, field_type, mul_operand};
pub use places::{as_desig, as_literal, desig_place, expr_place};
pub use routines::{Callee, Site, Want, Wants, fits_want, is_any, site_fits, sort_value};
pub use types::{
    agree, condition_fault, has, has_object, has_simple, is_object, is_same, is_simple, may_agree,
    may_be_simple, may_have, value_fault, where_so,
};
pub use uses::{callee_of, part_type, use_type};
