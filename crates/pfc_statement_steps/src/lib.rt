//! Statements, taken apart one part at a time, up to the action that comes next.
//!
//! It promises that each step in a statement, in a list of statements, where a part of a statement has its value or ends, where a
//! statement has ended and another part stands behind it, and where a guard of a resource has its value, comes to the action that the
//! definitions of meaning say. Each step reads one part of the text, or puts one part among those that are pending. It knows no
//! variable's value, no expression's parts, and no alternative of a select.
#![tactic(auto)]

mod begins;
mod calls;
mod communication;
mod ended;
mod guards;
mod input;
mod lists;
mod loops;
mod output;
mod points;
mod procedures;
mod statements;

pub use begins::{Begin, Resumed, Select};
pub use communication::accepting;
pub use ended::resume;
pub use guards::arrive_guard;
pub use input::reads;
pub use lists::stmts;
pub use output::{item, writes};
pub use points::{arrive_in, resume_in};
pub use statements::stmt;
