//! Rendezvous and the decisions of selects keep what it is for the machine to represent a configuration.
//!
//! It promises that a call of an entry, an accept and the end of one do on the machine what they do in the source text, whether the other side waits or not;
//! and so does the decision of a select: that decisions fall into those that take a message, those that take an entry and those that take nothing, and that
//! each of them withdraws what was offered, passes the value or begins the meeting, or waits. It has no code.
#![tactic(auto)]

mod laws;

pub use laws::{
    accepts_are_kept, calls_of_entries_are_kept, checked_programs_have_processes,
    decisions_are_divided, ends_of_accepts_are_kept, entries_of_selects_are_kept,
    messages_of_selects_are_kept, unmatched_selects_are_kept, unmet_accepts_are_kept,
    unmet_calls_are_kept,
};
