//! Tests of the floor of processes: the table of processes, picks, draws and scripts.
//!
//! Each has the answers that are owed beside its calls. The crate has nothing else.
#![tactic(auto)]

#[cfg(test)]
mod picks;
#[cfg(test)]
mod scripts;
#[cfg(test)]
mod table;
