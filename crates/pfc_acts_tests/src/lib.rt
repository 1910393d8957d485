//! Tests of actions one after the other: programs with who acts, the line of each action, its end, and what is written.
//!
//! The crate has nothing else.
#![tactic(auto)]

#[cfg(test)]
mod programs;
#[cfg(test)]
mod runs;
