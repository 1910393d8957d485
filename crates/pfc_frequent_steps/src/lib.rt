//! The frequent steps of quiet rewriting, in small values.
//!
//! It promises that what they come to stands for the same action as what was at hand before them. They are those of numbers, of names without
//! selectors, of elements by one index, of lists of statements, of assignments to those, of statements that are one action, of tests, of the
//! arms of a `case`, of a `for` that is under way, of the way back of a loop and of the end of a body; all else is left at hand. It knows no
//! variable's value.
#![tactic(auto)]

mod counts;
mod ended;
mod expressions;
mod names;
mod near;
mod operators;
mod stack;
mod statements;
mod steps;
mod tested;
mod values;
mod within;

pub use steps::come;
pub use within::step_often;
