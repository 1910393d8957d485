//! What the variables of a program that runs by rewriting hold, and where they lie.
//!
//! It promises that values, locations, spots, displays, the store of the living activations and the first values of variables are what
//! the definitions of meaning say of them. It rewrites nothing, and knows no process.
#![tactic(auto)]

mod displays;
mod firsts;
mod objects;
mod parts;
mod room;
mod rooms;
mod spots;
mod values;

pub use displays::{Display, Frame};
pub use firsts::{first_laid, first_value, new_values};
pub use objects::{Objects, main_variables};
pub use rooms::Store;
pub use spots::{Spot, StepFault, TypedSpot};
pub use values::{Location, Selector, Value, copy_values};
