//! Plain `!` and `?`: a message passes to a process that waits for it, or the process that acts waits for one that takes it.
//!
//! It promises that each is the action of the definitions: the value goes to the process that has waited longest on the other side, both go
//! on, and without such a process the one that acts waits and shows what it offers. What is refused changes nothing that is to be seen, and
//! the offer is given back. It decides no select.
#![tactic(auto)]

mod messages;

pub use messages::{receives, sends};
