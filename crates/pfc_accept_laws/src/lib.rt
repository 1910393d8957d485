//! Laws of what processes show while they wait, and of their displays, in a run of the source text.
//!
//! It promises that a process which is in its first activation has the display with which it began, and that what a process shows while it waits is
//! what it was about to ask or to offer; and that an accept which comes next is not within itself, where what the process has
//! still to do is placed. It knows no machine.
#![tactic(auto)]

mod laws;

pub use laws::{
    accepts_stand_once, callers_pass_locations, first_displays_come_back,
    hands_show_what_was_asked, hands_show_what_was_offered, processes_stay_placed,
};
