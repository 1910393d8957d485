//! Selects: the deciding action of a select, and what becomes of a process that waits in one.
//!
//! It promises that the first of these is done that applies: a matched alternative is taken with its first partner; the else part; an open
//! `timeout 0`; else the process waits with all that is open, up to the moment of its `timeout`, and stands at the branch of that one. The
//! faults are that nothing is open, and a moment too late; they change nothing. Which of several matched alternatives is taken is its caller's
//! choice. Settling changes the standings alone. Nothing takes memory. That the action is counted, and its line, are its caller's.
#![tactic(auto)]

mod deciding;
mod laws;
mod partners;
mod settling;
mod waiting;

pub use deciding::{choices, decide};
pub use laws::who_is_open_offers;
pub use settling::settle;
pub use waiting::take_up;
