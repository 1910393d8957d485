//! Calls of monitors and resources from outside, the ends of those of monitors, and requeues keep the representation.
//!
//! It promises that machine and source text come to the same wherever the code of the process that acts has arrived at such an action. It has no code.
#![tactic(auto)]

mod laws;

pub use laws::{
    checked_programs_may_enter, checked_programs_may_requeue, entries_are_kept,
    every_requeue_is_kept, module_entries_are_kept, monitors_are_left, procedures_are_left,
    requeues_are_kept,
};
