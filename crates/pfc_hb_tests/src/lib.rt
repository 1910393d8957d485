//! Tests of the order of events and of races. The crate has nothing else.
#![tactic(auto)]

#[cfg(test)]
mod events;
#[cfg(test)]
mod tables;
