//! One action of a process on the machine of the whole language: its quiet instructions, and the action that comes next, counted. And settling.
//!
//! It promises that an action is the one of its instruction, with the fault and the line of that one, and that it is counted once; that a fault
//! changes nothing else, and that want of memory leaves the process before its action. It picks nobody, and says of no action what it does: that
//! is said by the crates that perform them.
#![tactic(auto)]

mod activating;
mod acts;
mod advancing;
mod communicating;
mod holding;
mod laws;
mod living;
mod performing;
mod settling;
mod stepping;

pub use acts::{ActionEnd, act};
pub use laws::actions_are_counted_once;
pub use performing::perform;
pub use settling::settle;
