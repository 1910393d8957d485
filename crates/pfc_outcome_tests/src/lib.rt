//! Tests of the options of the words, of the loading of a run's files, and of the made text.
//!
//! Each is a table of calls with the answers that are owed. The crate has nothing else.
#![tactic(auto)]

#[cfg(test)]
mod files;
#[cfg(test)]
mod words;
