//! Laws of the names of the program and of its modules.
//!
//! It promises that their variables are no references and hold what may stand there. It has no code.
#![tactic(auto)]

mod laws;

pub use laws::names_are_of_main;
