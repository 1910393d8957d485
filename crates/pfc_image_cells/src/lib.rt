//! Laws of the cells that the image of a program names. Each function does nothing: its contract is the law.
//!
//! It promises that an instruction which names a cell by a level and a number names a variable of the block that lies so many static links
//! up. It makes no code.
#![tactic(auto)]

mod laws;

pub use laws::{cells_are_below, cells_are_named, modules_are_named, subs_are_numbered};
