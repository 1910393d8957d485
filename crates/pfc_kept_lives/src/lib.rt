//! Creations and ends of processes keep the representation.
//!
//! It promises that machine and source text come to the same wherever the code of the process that acts has arrived at such an action. It has no code.
#![tactic(auto)]

mod laws;

pub use laws::{creations_are_kept, ends_are_kept};
