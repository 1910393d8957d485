//! The deciding action of a select.
//!
//! It promises that the select does what the definitions say, by the first of five steps that applies: a matched alternative is taken, or the
//! `else` part; an open `timeout 0` is taken; the process waits with all that is open, or the action is a fault. A choice is asked for exactly
//! where a plain select has something to choose among. What is refused changes nothing that is to be seen, no choice is made, and the select is
//! given back.
#![tactic(auto)]

mod accepting;
mod deciding;
mod matching;
mod messages;
mod own;
mod waiting;

pub use deciding::decides;
