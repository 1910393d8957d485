//! What performs the action of a process, whichever it is.
//!
//! It promises that the action that is performed is the one of the definitions, that a choice is drawn only where there is something to choose
//! among, and that want of memory leaves all as it was, with the action given back. It joins the crates of the actions, and performs none
//! itself.
#![tactic(auto)]

mod calls;
mod guards;
mod meetings;
mod objects;
mod performing;
mod variables;

pub use performing::perform;
