//! No select in the image of a checked program has more alternatives than a static rule allows.
//!
//! It promises that of the image as the definition of the whole language has it: where no rule is broken, each select has at most 1,024 alternatives, one with
//! a spread counted once for each value. It has no code.
#![tactic(auto)]

mod laws;

pub use laws::alternatives_are_few;
