//! Expressions, taken apart one part at a time, up to the action that comes next.
//!
//! It promises that each step stands for the same action as what was at hand before it: a part of the text that is read, a part of a variable
//! that is led into, a variable that meets what waits for it, and a value that meets what waits for that. A step reads one part, or puts one
//! part among those that are pending; want of memory leaves all as it was. It knows no variable's value, no statement that holds others, and
//! no select.
#![tactic(auto)]

mod elements;
mod expressions;
mod factors;
mod operators;
mod passing;
mod values;
mod variables;

pub use expressions::{expr, multipliers, simple, summands, term};
pub use factors::factor;
pub use passing::pass;
pub use values::{arrive, is_of_expression, reserve};
pub use variables::{Reached, Reason, lead, reach};
