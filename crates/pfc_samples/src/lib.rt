//! Samples of the meaning.
#![tactic(auto)]
