//! Small facts of phrases, which the code of a program and its runs need.
//!
//! It promises which predeclared routine a name is, which string or char a literal is, what is communicated, which values a
//! spread has, and how many accepts stand in a statement, all as the definitions of runs have them. It takes no memory and
//! asks no rule.
#![tactic(auto)]

mod communication;
mod counts;
mod names;
mod routines;
mod spreads;
mod words;

pub use communication::{message_of, receiver_of};
pub use counts::{behind_accept, behind_alts, behind_comm, behind_stmt, behind_stmts};
pub use names::{entry_number, name_in_process, process_of_type};
pub use routines::{Function, Procedure, function_of, procedure_of};
pub use spreads::spread_values;
pub use words::{as_string, char_in, simple_of};
