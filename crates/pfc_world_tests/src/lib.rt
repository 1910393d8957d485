//! Tests of the table of processes with as many processes as it may have.
#![tactic(auto)]

#[cfg(test)]
mod many;
