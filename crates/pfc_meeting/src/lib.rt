//! What two processes do that meet: what is open, how both go on behind a message, and the end of a rendezvous.
//!
//! It promises that the alternatives found are the ones of the definitions, that a message which passes is the action of the definitions for
//! both processes, and so is the end of an accept. What is refused changes nothing that is to be seen. It picks no partner.
#![tactic(auto)]

mod offered;
mod onward;
mod opens;
mod parting;
mod partners;
mod passing;

pub use offered::{Delay, communication_at, first_delay, may_terminate};
pub use onward::{Onward, go_onward, make_room};
pub use opens::{arm_of, arms_of_all, first_open, object_at};
pub use parting::parts;
pub use partners::{Met, Receiver, Sender, met_at, met_receiver, met_sender, place_of};
pub use passing::{go_on_with, pass, room_at};
