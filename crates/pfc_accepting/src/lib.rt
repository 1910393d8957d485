//! Rendezvous: calls of entries, accepts, and the meetings that begin with them.
//!
//! It promises that each is the action of the definitions for both processes: which caller is taken, that the accept's parameters take the
//! caller's values and references, what the accepting process does in the meeting and behind it, and what a process shows that waits. Room is
//! taken before anything else changes, so what is refused changes nothing that is to be seen. It decides no select, and ends no meeting.
#![tactic(auto)]

mod answering;
mod beginning;
mod calling;
mod meetings;
mod owners;
mod parts;
mod rules;

pub use answering::accepts;
pub use beginning::{room_for_meeting, take_caller};
pub use calling::enters;
pub use meetings::{Meeting, meeting_at};
