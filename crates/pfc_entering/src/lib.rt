//! Calls of exported procedures of monitors and of resources from outside.
//!
//! It promises that each is the action of the definitions: the process is at the body of the procedure, behind its guard where it has one,
//! in a new activation that is marked with the monitor or the resource; it has that where it is free, and else waits as an entrant. A call that
//! is refused memory changes nothing that is to be seen, and its arguments are given back. It ends no activation, and evaluates no guard.
#![tactic(auto)]

mod guards;
mod modules;
mod rules;

pub use guards::{at_scan, bar_at, procedure_of};
pub use modules::calls_module;
pub use rules::enter_resource_by;
