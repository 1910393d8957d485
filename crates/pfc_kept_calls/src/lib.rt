//! Calls, returns and creations keep the representation.
//!
//! It promises that machine and source text come to the same wherever the code of the process that acts has arrived at such an action. It has no code.
#![tactic(auto)]

mod laws;

pub use laws::{
    calls_are_kept, checked_programs_may_call, faults_end_alike, plain_calls_are_kept,
    returns_are_kept,
};
