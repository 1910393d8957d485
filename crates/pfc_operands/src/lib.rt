//! How many operands an instruction takes and leaves, and how many code may hold.
//!
//! It promises these numbers as the definition of an image has them, over a program whose blocks' parameters and results are
//! given. It takes no memory, and knows no phrase.
#![tactic(auto)]

mod callees;
mod operands;

pub use callees::Callees;
pub use operands::{leaves, most_operands, takes};
