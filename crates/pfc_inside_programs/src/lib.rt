//! Laws of monitors in checked programs. The functions do nothing: their contracts are the laws.
//!
//! It promises that what is asked of a program, so that who performs the text of a monitor is inside it, is so of
//! every checked program, where names of subs stand
//! where these are declared. It knows no run.
#![tactic(auto)]

mod laws;

pub use laws::{checked_programs_are_scoped, checked_programs_have_text};
