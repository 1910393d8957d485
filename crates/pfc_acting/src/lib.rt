//! One action of a process: all that is quiet, and then the action that comes next.
//!
//! It promises that the action is the one that the definitions say comes next for the process, and that want of memory leaves the process
//! before the same action. It joins quiet rewriting and what performs actions; it picks nobody.
#![tactic(auto)]

mod acting;
mod advancing;

pub use acting::act;
pub use advancing::{next, put_back};
