//! Laws of the guards of checked programs. Each function does nothing: its contract is the law.
//!
//! It promises that the text of a program in which no static rule is broken calls what the rules ask, so that its guards are of their own resources in every
//! run. It knows no machine.
#![tactic(auto)]

mod laws;

pub use laws::{checked_programs_call_as_asked, checked_programs_call_in_order};
