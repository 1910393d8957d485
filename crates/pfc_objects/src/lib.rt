//! The objects of a program by their cells.
//!
//! It promises the semaphores, channels, conditions and processes that lie in main's variables, each with its cell and its number, and how
//! many there are, as the definition of the image has them. It knows no code, and makes no object.
#![tactic(auto)]

mod cells;
mod numbers;
mod objects;

pub use objects::{Objects, main_objects};
