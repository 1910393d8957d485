//! One process: what it may stand at, what it may wait for, and how a standing changes.
//!
//! It promises that a process goes from standing to standing only by the transitions named here,
//! each of which uses the old standing up, and that whoever acts is never lost. It knows nothing
//! of other processes, of time, or of the order of waits.
#![tactic(auto)]

mod endings;
mod offers;
mod row;
mod standings;
mod states;
mod waits;

pub use endings::{Ending, ScriptWhy};
pub use row::Row;
pub use standings::{Standing, State};
pub use states::{Created, Done, Idle, Ready, Running, Waiting};
pub use waits::{Arm, Why};
