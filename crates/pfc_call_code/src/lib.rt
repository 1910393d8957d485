//! The code of assignments, of communication and of calls.
//!
//! It promises that the code of each of these statements is put behind all that is there, word for word as the definition of the image has
//! it, with the strings that it writes, and that `Full` comes only where that is more than a program may have. It asks no static rule,
//! and puts no jump.
#![tactic(auto)]

mod assignments;
mod calls;
mod communication;
mod input;
mod modules;
mod output;
mod procedures;
mod processes;
mod ways;

pub use assignments::assign;
pub use calls::{call, requeue};
pub use communication::{message, message_cells, receive, receiver, receiver_cells, send};
pub use ways::{message_at, receiver_at, resource_of};
