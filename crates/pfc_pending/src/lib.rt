//! Quiet rewriting of source text: what a process has still to do, and the one action that comes next.
//!
//! What is left to do is a list of pending parts, the innermost last; what is at hand is taken apart step by step, one part read, pushed or
//! popped at a time, until an action comes. Nothing here knows a variable's value, another process, or an instruction.
#![tactic(auto)]

mod actions;
mod at_hand;
mod pending;
mod select;
mod text;

pub use actions::Deed;
pub use at_hand::{At, Begun, Step};
pub use pending::{
    Argument, Bar, Callee, Count, Counter, Goal, Passing, Pending, Piece, Point, Scan, Tried,
};
pub use select::{Accepting, Alternative, Choosing, Offer, Open, Otherwise, Replica, Selecting};
pub use text::{Actuals, OneStmt, Stmts};
