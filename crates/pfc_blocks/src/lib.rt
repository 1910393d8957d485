//! The blocks of an image.
//!
//! It promises the block of each body whose code was put, as the definition of the image has it: its label, its parameters, its cells and
//! the most operands that its code may hold. It puts no code.
#![tactic(auto)]

mod labels;
mod making;
mod parameters;
mod placed;

pub use making::{block, main_block};
pub use parameters::Called;
pub use placed::Placed;
