//! Quiet rewriting: from what a process is at to the one action that comes next.
//!
//! It promises that the action is the one that the definitions of meaning say comes next, that what is left behind it is pending then,
//! and that want of memory leaves the process before the same action. It joins the steps of expressions, statements and selects; it knows
//! no variable's value and no other process.
#![tactic(auto)]

mod ends;
mod going;
mod parts;
mod phrases;
mod turns;
mod values;
mod within;

pub use going::Going;
pub use within::next_deed;
