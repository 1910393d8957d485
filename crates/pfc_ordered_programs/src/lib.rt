//! Laws of the order in which the bodies of a program call and enter. Each function does nothing: its contract is the law.
//!
//! It promises that what is named in view in a body of a lawful program comes in the order of the parts of the program, and that accepts name parameters
//! alone. It knows no run.
#![tactic(auto)]

mod laws;

pub use laws::programs_are_in_order;
