//! Rendezvous, selects, and the end of processes that only serve.
//!
//! It promises that each call does to the standings what the language says of the action: that a meeting begins with who
//! has waited longest, that a partner in a select is met at its first alternative that fits, that a process is never its
//! own partner, and that processes terminate only all together. No call takes memory. It walks over the alternatives of
//! one select and over no processes, evaluates no guard, moves no value, and makes no choice among matched alternatives.
#![tactic(auto)]

mod laws;
mod partners;
mod rendezvous;
mod selects;
mod terminating;

pub use laws::{
    a_partner_is_another_process, nobody_waits_for_one_who_waits_for_it, processes_terminate_once,
};
pub use rendezvous::{Accepted, Called, Uncalled, accept, call_entry, end_accept};
pub use selects::{Committed, matches, select_commit, select_wait};
pub use terminating::terminate_all;
