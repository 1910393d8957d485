//! Laws of guards in a run of the source text. Each function does nothing: its contract is the law.
//!
//! It promises that wherever a run of a program comes whose text calls what the rules ask, each guard that is tried, or at which a process is barred, is of the
//! resource in which its procedure stands; and that who scans a resource behind a return has left it, where returns are from resources that were entered once.
//! It knows no machine.
#![tactic(auto)]

mod laws;

pub use laws::{
    guards_are_of_their_resources, living_runs_return_once, ordered_activations_enter_once,
    runs_keep_to_rules, who_scans_has_left,
};
