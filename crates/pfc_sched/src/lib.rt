//! Picks, scripts and draws: who acts next, and the numbers that a run draws.
//!
//! It promises that each pick, each choice and each draw is the one that the policy and the seed state. It changes no
//! standing, and it takes no memory but for the list of a script.
#![tactic(auto)]

mod drawing;
pub mod laws;
mod number_list;
mod picking;
mod script_text;
mod words;

pub use drawing::Draws;
pub use number_list::Picks;
pub use picking::{Pick, Picker, Policy};
pub use script_text::{ScriptFault, read_script};
