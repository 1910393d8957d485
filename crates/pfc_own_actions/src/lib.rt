//! Actions that touch no object: input, output, draws, time, and the beginnings and ends of processes.
//!
//! It promises that each does what the table of instructions says, or ends in its fault and changes nothing. The process that acts has acted
//! then, and is ready unless it waits or has finished; that the action is counted, and its line, are its caller's. Only output and a creation
//! take memory, all of it before anything is changed.
#![tactic(auto)]

mod creating;
mod input;
mod output;
mod processes;
mod time;

pub use creating::create;
pub use input::{ask_end, ask_line_end, draw, read, skip};
pub use output::{write_line_end, write_text, write_value};
pub use processes::{finish, join};
pub use time::{ask_clock, moment_after, sleep};
