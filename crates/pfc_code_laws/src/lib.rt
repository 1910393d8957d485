//! Laws of the code of a program. Each function does nothing: its contract is the law.
//!
//! It promises what the definition of an image says of code wherever it stands. It makes no code.
#![tactic(auto)]

mod laws;

pub use laws::expressions_are_plain;
