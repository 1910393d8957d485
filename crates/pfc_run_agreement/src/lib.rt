//! Runs of the machine beside runs of the source text. Each function does nothing: its contract is the law.
//!
//! It promises that both runs are the same wherever each action of one is that of the other: the same processes act, the same bytes are
//! printed, and the ending is the same. It says nothing of what an action is, and runs nothing.
#![tactic(auto)]

mod laws;

pub use laws::{runs_agree, sessions_run_the_source};
