//! Requeues.
//!
//! It promises that a requeue is the action of the definitions: an activation of the other procedure, with the same caller and the same way
//! back, takes the place of the innermost, and a scan comes ahead of its guard. A requeue that is refused memory changes nothing that is to be
//! seen, and its arguments are given back. It evaluates no guard.
#![tactic(auto)]

mod requeueing;

pub use requeueing::requeues;
