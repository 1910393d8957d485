//! Sessions: the runs of an image on the machine of the whole language, action by action.
//!
//! It promises that a run is the machine's own: the same processes are picked, the same actions are done, the same bytes are written, and the
//! ending is the run's. It performs no instruction itself, makes no code, and writes no report.
#![tactic(auto)]

mod endings;
mod output;
mod runs;
mod session;

pub use pfc_machine_acts::ActionEnd;
pub use session::Session;
