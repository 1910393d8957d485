//! Laws of the accepts of checked programs. The functions do nothing: their contracts are the laws.
//!
//! It promises that in a program in which no static rule is broken each process has its statements where their numbers say, before all scopes that they
//! declare, and that accepts stand in no other body; so that what tells of accepts is so all along its runs. It knows no machine.
#![tactic(auto)]

mod laws;

pub use laws::{checked_programs_have_places, checked_runs_tell_of_accepts};
