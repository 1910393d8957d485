//! What an activation sees of the stacks of all processes: cells by static links, and the variables of the source text by their names.
//!
//! It promises that the instructions which count static links give the addresses of the variables that the source text names, and that writes, calls
//! and ends of activations keep what is seen. It has no code.
#![tactic(auto)]

mod laws;

pub use laws::{
    actions_keep_what_is_seen, changes_keep_what_is_seen, named_variables_lie_in_view,
    seen_names_are_checked, static_links_lead_along,
};
