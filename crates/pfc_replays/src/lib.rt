//! Laws of outcomes and traces. Each function does nothing: its contract is the law.
//!
//! They say that a text with the trace of its run as the script has the outcome of that run. Nothing runs here.
#![tactic(auto)]

mod laws;

pub use laws::a_trace_gives_its_outcome;
