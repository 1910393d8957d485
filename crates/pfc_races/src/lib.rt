//! The events of a run as its order sees them, and the races of a run.
//!
//! It says how what an action was, by the meaning of programs, is an event of the order: which variables, objects and processes it names, and
//! which of main's actions joins behind a `coend`. Its laws say that these are the actions of the run, and that there are no more of them than
//! its limit allows. It runs nothing: each function does nothing, and its contract is the law.
#![tactic(auto)]

mod laws;

pub use laws::{events_are_few, events_are_kept_step_by_step, steps_are_the_actions_of_a_run};
