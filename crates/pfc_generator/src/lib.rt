//! The image of a program: the code of the whole language.
//!
//! It promises that the image of a checked tree is the one of its definition, word for word: code with its lines, blocks, processes, objects,
//! strings; and that it is refused as too large exactly where it has more than 200,000 instructions. It runs nothing.
#![tactic(auto)]

mod bodies;
mod coded;
mod declared;
mod faults;
mod making;
mod phrases;
mod pieces;
mod program;

pub use faults::GenFault;
pub use program::generate;
