//! Meetings: the actions of processes that call entries and accept calls.
//!
//! It promises that a call meets an owner that waits to accept it and waits else, that an accept takes the process that has waited longest, and
//! that a meeting ends for both; the arguments go from the operands of the caller to the parameters of the accept, and a caller that waits keeps
//! them as its operands. The one fault is the call of a process that is not active, and changes nothing. No action takes memory. That the action
//! is counted, and its line, are its caller's.
#![tactic(auto)]

mod meetings;

pub use meetings::{accept, begin_meeting, call_entry, end_accept};
