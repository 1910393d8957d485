//! Settling: before each pick, and at the end of a run.
//!
//! It promises that settling is that of the definitions: who is due is ready, the clock goes on where nobody is, and children that only serve
//! end, with their activations, where nothing else can happen any more. It takes no memory, and performs no action.
#![tactic(auto)]

mod children;
mod settling;

pub use settling::settle;
