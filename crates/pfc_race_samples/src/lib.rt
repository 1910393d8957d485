//! Samples of the race reports of runs.
#![tactic(auto)]
