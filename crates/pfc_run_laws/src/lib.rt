//! Laws of the runs of a text. Each function does nothing: its contract is the law.
//!
//! It promises that what was written stays: the output of a run begins with what it was before. It runs nothing.
#![tactic(auto)]

mod laws;

pub use laws::output_only_grows;
