//! Who waits in a select with which alternative.
//!
//! It promises that those who wait with an alternative are found along its list, in the order of their waits, which
//! no two alternatives share where the program has no more channels and entries than the table was told of; that a process is put among
//! those who wait with each of its alternatives, and taken out again, without a walk past anybody else; and that no
//! call but the one that makes the lists takes memory. It knows processes by number, and nothing of what else they
//! wait for.
#![tactic(auto)]

mod alternatives;
mod lists;

pub use alternatives::Alternatives;
