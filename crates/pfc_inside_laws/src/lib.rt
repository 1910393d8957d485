//! Laws of who is inside a monitor, of runs of the source text. The functions do nothing: their contracts are the laws.
//!
//! It promises that a child which performs the text of a monitor has entered it from outside and not yet left, where the program is scoped as a checked one is.
//! It knows no machine, and does not tell who holds a monitor.
#![tactic(auto)]

mod laws;

pub use laws::who_performs_is_inside;
