//! Monitors and their conditions.
//!
//! It promises that each call does to the standings and the holders what the language says of the action: that a monitor
//! has at most one holder, that it goes to the latest resumer before the first entrant, and that a condition lets on the
//! waiter of least rank, and at one rank the one that has waited longest. No call but `Monitors::new` takes memory. It
//! walks over no processes, and knows no activation.
#![tactic(auto)]

mod conditions;
mod laws;
mod monitors;

pub use conditions::{delay, is_empty, resume};
pub use laws::{a_free_monitor_is_wanted_by_nobody, the_latest_resumer_comes_before_any_entrant};
pub use monitors::{Monitors, enter, leave};
