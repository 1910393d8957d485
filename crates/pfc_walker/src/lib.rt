//! A program that runs by rewriting its source text.
//!
//! It promises that a run is the run of the definitions: the same processes are picked, the same actions are done, the same bytes are written,
//! and the ending is theirs; and so are the events of a run that is made for them. It joins the crates below it, and rewrites nothing itself.
#![tactic(auto)]

mod actions;
mod actors;
mod output;
mod runs;
mod standings;
mod telling;
mod turns;
mod walker;
mod watching;

pub use actions::a_walker_is_before_its_actions;
pub use telling::Told;
pub use walker::Walker;
