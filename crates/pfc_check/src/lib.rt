//! The static check of a tree.
//!
//! It promises that a tree is refused exactly where a static rule is broken in it, by the first of them in the text, and
//! that it is checked otherwise, unless memory is refused. The tree is handed back with a refusal. Of a statement it asks
//! only what needs the declarations so far or the labels that it has seen: 320 and 415. It states no rule: the definitions
//! stand below.
#![tactic(auto)]

mod cells;
mod checker;
mod entries;
mod headings;
mod items;
mod modules;
mod parts;
mod processes;
mod ranges;
mod state;
mod stmts;
mod subs;
mod types;

pub use checker::{CheckFault, check};
