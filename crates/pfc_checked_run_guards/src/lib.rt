//! Laws of the guards in runs of checked programs. Each function does nothing: its contract is the law.
//!
//! It promises that in every run of a program in which no static rule is broken each guard is of the resource in which its procedure stands. It knows no
//! machine.
#![tactic(auto)]

mod laws;

pub use laws::{checked_runs_return_once, checked_runs_try_their_own_guards};
