//! Laws of the numbers in the image of a program. Each function does nothing: its contract is the law.
//!
//! It promises that what an instruction names by a number is there: the monitor, the resource, the entry, each mark, and the cells that an
//! accept writes. It makes no code.
#![tactic(auto)]

mod laws;

pub use laws::{accepts_are_within, numbers_are_there};
