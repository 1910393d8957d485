//! Tests of the top call on words, shelves and sinks that a table of texts cannot hold: which loads and writes fail, by
//! which pieces the output goes, and which answers hand back a session.
//!
//! The crate has nothing else.
#![tactic(auto)]

#[cfg(test)]
mod sessions;
#[cfg(test)]
mod sinks;
#[cfg(test)]
mod words;
