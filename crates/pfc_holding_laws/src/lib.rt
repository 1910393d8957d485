//! Laws of who holds a monitor, on the representation. The functions do nothing: their contracts are the laws.
//!
//! It promises that a process that acts has living activations, and holds each monitor in which it is, so that it may resume there. It changes nothing.
#![tactic(auto)]

mod laws;

pub use laws::{children_resume_as_holders, who_acts_is_alive, who_is_inside_holds};
