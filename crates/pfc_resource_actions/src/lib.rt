//! Actions of a process that holds a resource: turns of a scan, and guards by which the resource changes hands.
//!
//! It promises that each is one equation on the machine. A turn takes the barred process of the least ticket above the last one, and the process
//! goes on at that one's guard; without one the resource is given up, or the process tries its own guard. None takes memory, and none ends in a
//! fault. That the action is counted, and its line, are its caller's.
#![tactic(auto)]

mod guards;
mod scans;

pub use guards::guard;
pub use scans::scan;
