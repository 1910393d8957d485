//! The order of the events of one run, and the pairs of conflicting accesses that it leaves unordered.
//!
//! It promises that the pairs it names are exactly those that conflict and that nothing in the given run orders, and
//! that their lines are the text that the definitions give. It knows nothing of programs: what an event of a run is,
//! the floors above say, and other runs of the same program may have other pairs.
#![tactic(auto)]

mod accesses;
mod clocks;
mod columns;
mod comparing;
mod events;
mod lasts;
mod lines;
mod marks;
mod objects;
mod order;
mod pairs;
mod parts;
mod rows;
mod slots;
mod users;

pub use accesses::{Access, Accesses, Path, Spot};
pub use events::{Event, Race};
pub use lines::race_lines;
pub use objects::{Numbers, Thing, Things};
pub use pairs::races;
