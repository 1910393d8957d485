//! Actions by which activations begin and end: calls and returns, from inside and from outside of monitors and resources, and requeues.
//!
//! It promises that each is one equation on the machine, or ends in its fault and changes nothing. Who enters a monitor or a resource that is
//! held waits, in its new activation; a return from a monitor hands it over, and one from a resource begins a scan, as a requeue does. Only
//! calls and requeues take memory, all of it before anything is changed. It evaluates no guard, and performs no turn of a scan. That the
//! action is counted, and its line, are its caller's.
#![tactic(auto)]

mod beginning;
mod calls;
mod requeues;
mod returns;
mod scans;

pub use calls::{call, call_monitor, call_resource};
pub use requeues::requeue;
pub use returns::{end_call, end_function};
