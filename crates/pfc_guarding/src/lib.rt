//! The actions of guarded resources behind a call: the turns of a scan, a false guard, and a true one.
//!
//! It promises that each is the action of the definitions: whose guard is tried next, who has the resource then, who waits, and what a barred
//! process shows to the others. Want of memory changes nothing that is to be seen, and what the action was given is given back. It evaluates no
//! guard.
#![tactic(auto)]

mod actions;
mod barring;
mod rules;
mod tries;
mod under;

pub use actions::{bars, passes, scans};
