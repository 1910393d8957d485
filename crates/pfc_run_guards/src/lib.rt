//! Laws of the guards in runs of checked programs. Each function does nothing: its contract is the law.
//!
//! It promises that in every run of a program in which no static rule is broken each guard is of the resource in which its procedure stands,
//! and that where calls come in the order of the parts of the program nobody enters twice what it is in. It knows no machine.
#![tactic(auto)]

mod laws;

pub use laws::{living_runs_keep_to_rules, runs_try_their_own_guards};
