//! The top call: words, files and a sink in; a status out, and the session that made the run.
//!
//! It promises that the status and the bytes are those of the source text itself: its first fault, or the run that its
//! constructs make. It scans, parses, checks, compiles and runs by the crates below, and has no meaning of its own.
#![tactic(auto)]

mod answering;
mod bytes;
mod compiling;
mod replies;
mod running;
mod top;
mod writing;

pub use replies::Answer;
pub use top::pfc;
