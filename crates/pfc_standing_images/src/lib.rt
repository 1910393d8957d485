//! Where the code of a program's image stands.
//!
//! The image has the code of each body at the addresses of its block, and it performs what the body has to do. It has no code.
#![tactic(auto)]

mod laws;

pub use laws::{blocks_stand, bodies_are_performed, operands_have_room};
