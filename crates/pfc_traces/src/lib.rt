//! Traces of runs: who acted, action by action.
//!
//! It says what the trace of a run is, and what is chosen in one. Its laws say that a trace, read as a script, is its numbers, and that a run in
//! which every choice was the first is the run that its trace picks. Each function does nothing: its contract is the law.
#![tactic(auto)]

mod laws;

pub use laws::{a_trace_is_a_script, a_trace_replays_its_run, who_acts_is_a_process};
