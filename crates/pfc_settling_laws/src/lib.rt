//! Settling, and the end of a run, on the machine and in the source text.
//!
//! It promises that a machine that represents a configuration represents it still when both are settled, and that a machine that agrees with a configuration
//! tells of it what that tells: whether and how the run ends, standings with lines, and who is picked. It has no code.
#![tactic(auto)]

mod endings;
mod settling;

pub use endings::{
    agreeing_machines_report, picks_are_the_same, runs_end_alike, what_goes_on_is_represented,
};
pub use settling::{room_has_no_part_in_settling, settling_keeps_the_representation};
