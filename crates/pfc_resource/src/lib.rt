//! Guarded resources.
//!
//! It promises that each call does to the standings and the holders what the language says of the action: that a resource
//! has at most one holder, that who is barred is tried in the order of tickets, and that an entrant comes in only where
//! all guards were tried. No call but `Resources::new` takes memory. It walks over no processes, evaluates no guard, and
//! knows no activation.
#![tactic(auto)]

mod laws;
mod resources;
mod scans;

pub use laws::{
    a_free_resource_is_wanted_by_nobody, barred_processes_are_tried_in_the_order_of_tickets,
};
pub use resources::{Resources, enter, leave};
pub use scans::{Barred, bar, pass_to, requeue, scan_next};
