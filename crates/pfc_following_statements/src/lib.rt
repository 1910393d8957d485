//! The code of statements follows the next action of its source text.
//!
//! It has no code of its own.
#![tactic(auto)]

mod laws;

pub use laws::{
    activations_follow, assignments_follow, calls_follow, communication_follows,
    every_call_follows, output_and_input_follow, procedures_follow,
};
