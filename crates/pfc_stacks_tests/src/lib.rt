//! Tests of the stacks of processes: operands and cells, calls and returns, static links, references, creations and limits.
//!
//! Each is a table of calls with the answers that are owed. The crate has nothing else.
#![tactic(auto)]

#[cfg(test)]
mod images;
#[cfg(test)]
mod instructions;
#[cfg(test)]
mod limits;
#[cfg(test)]
mod one_activation;
#[cfg(test)]
mod one_activation_rows;
#[cfg(test)]
mod sequences;
#[cfg(test)]
mod states;
