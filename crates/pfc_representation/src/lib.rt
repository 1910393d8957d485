//! What it is for the machine to represent a configuration of the source text: one clause for each process, one for the store, and equality for all that both
//! sides have in the same words.
//!
//! It promises that an action of one process keeps the clause of every other. It has no code.
#![tactic(auto)]

mod laws;

pub use laws::{
    moves_leave_others_alone, others_are_kept, quiet_moves_keep_all,
    represented_configurations_are_reported,
};
