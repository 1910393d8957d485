//! Due moments of processes, the earliest first.
//!
//! It promises that the process that is due first is found in one look, and that no call but the one that
//! takes the room takes memory. It knows nothing of clocks.
#![tactic(auto)]

mod moments;

pub use moments::{Due, Moments};
