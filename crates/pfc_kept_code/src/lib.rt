//! What is left stands where it stood, whatever else the activation sees, as long as it sees the same of the names in view.
//!
//! It has no code of its own.
#![tactic(auto)]

mod laws;

pub use laws::performing_is_kept;
