//! The machine of the whole language: all that there is between two instructions, and the quiet instructions that are not of the stacks
//! alone.
//!
//! It promises that the machine begins as its image says, that each of these instructions does what its effect says, and that what
//! activations have to do with other processes has its room before they need it. It performs no action, and picks nobody.
#![tactic(auto)]

mod actions;
mod alternatives;
mod communications;
mod descriptors;
mod machine;
mod moving;
mod partners;
mod quiet;
mod rooms;

pub use actions::ActionFault;
pub use alternatives::{Alternative, KeptAlternative, Offer, Sought};
pub use communications::Communications;
pub use descriptors::{Descriptor, Descriptors, Scan};
pub use machine::Machine;
pub use moving::{leave, leave_instead, leave_more, leave_written, number_in, pass};
pub use quiet::Quiet;
pub use rooms::{Room, Rooms};
