//! The ends of bodies: how a process goes back to where a call came from, and how it ends.
//!
//! It promises that the end of a body is the action of the definitions: a return to a statement, or to an expression with the result of a
//! function; a return from a monitor, which hands that over; one from a resource, behind which a scan comes; and the end of a process. Want
//! of memory changes nothing that is to be seen. It calls nothing, and scans nothing.
#![tactic(auto)]

mod back;
mod ends;
mod results;
mod returns;
mod scans;
mod ways;

pub use returns::finishes;
