//! The code of the alternatives of a select up to its decision, of the head of an accept, and of the values of a replicated alternative.
//!
//! It promises that the code of each is put behind all that is there, word for word as the definition of the image has it, and that
//! `Full` comes only where that is more than a program may have. Alternatives are put before their branches, so they lead nowhere at first;
//! once the branches are put, each is led to its own, and the code is the one that the definition has for these distances. It asks no
//! static rule, and puts no branch.
#![tactic(auto)]

mod accepts;
mod alternatives;
mod cells;
mod leading;
mod replicas;

pub use accepts::accept;
pub use alternatives::open_alternatives;
pub use leading::{decide, lead_alternatives};
pub use replicas::{add_branches, choose};
