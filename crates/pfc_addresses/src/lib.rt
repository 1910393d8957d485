//! Where variables lie and blocks stand, from a place of the code.
//!
//! It promises the instruction that gives a variable's address and the one that calls a sub, as the definition of the image has them:
//! static links, cells and numbers of blocks. What is asked for each name is looked up in tables, which are made once for a program
//! and once for a block. It puts no code.
#![tactic(auto)]

mod addresses;
mod bodies;
mod rows;
mod sites;

pub use addresses::Addresses;
pub use bodies::Body;
pub use sites::{Base, Site};
