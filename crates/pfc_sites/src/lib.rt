//! Where a step of quiet rewriting is taken: what the names mean there, the parts of variables, and the arguments of calls.
//!
//! It promises that a name stands for the variable that the definitions of meaning say, and that a variable or an argument at hand comes
//! to the action that they say. It knows no variable's value.
#![tactic(auto)]

mod arguments;
mod sites;

pub use arguments::{all, expression, first, nowhere, part, passing, reference, second, selected};
pub use sites::Site;
