//! The top call of the walker: words, files and a sink in; a status out.
//!
//! It promises that the status and the bytes are those of the source text itself: its first fault, or the run that its constructs make. It
//! scans, parses, checks and runs by the crates below, and has no meaning of its own. Nothing below it makes code or runs any.
#![tactic(auto)]

mod answering;
mod racing;
mod reading;
mod replies;
mod reporting;
mod running;
mod top;
mod writing;

pub use top::walk;
