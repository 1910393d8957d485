//! Messages: the actions of sending and receiving processes.
//!
//! It promises that a message passes as the table of instructions says, to or from the process that has waited longest, which goes on behind
//! its own communication; and that without a partner the process waits, and offers what it waits for. Neither takes memory or has a fault. That
//! the action is counted, and its line, are its caller's.
#![tactic(auto)]

mod messages;

pub use messages::{receive, send, target_of};
