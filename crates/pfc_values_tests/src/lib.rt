//! Tests of the floor of plain values: numbers, items of input, pieces of output, names and texts, and files and sinks in memory.
//!
//! Each is a table of calls with the answers that are owed. The crate has nothing else.
#![tactic(auto)]

#[cfg(test)]
mod inputs;
#[cfg(test)]
mod numbers;
#[cfg(test)]
mod outputs;
#[cfg(test)]
mod outside;
#[cfg(test)]
mod plain;
