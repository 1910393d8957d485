//! Tests of the store: what is put where a spot lies is read there, and nowhere else; and how main's variables begin.
//!
//! Each is a table of calls with the answers that are owed. The crate has nothing else.
#![tactic(auto)]

#[cfg(test)]
mod numbers;
#[cfg(test)]
mod places;
