//! The processes of a program with their labels, as a report names them.
//!
//! It promises those of the program's image, without making the image: the block of each process and its label, in the order of main's
//! layout. It looks names up by the tables of a checked program, and runs nothing.
#![tactic(auto)]

mod labels;
mod naming;

pub use labels::processes;
