//! What an activation that begins sees, and what its caller sees behind its end.
//!
//! It promises that the cells of a new activation hold what was passed to it, that its static link leads to the activations which are around its block in
//! the source text, and that its caller sees behind the call and behind the return what it saw before. It has no code.
#![tactic(auto)]

mod laws;

pub use laws::{
    arguments_fill_the_block, calls_are_seen, created_processes_see, first_values_are_zeros,
    main_sees_its_own, more_may_be_kept, replacements_are_seen, returns_keep_the_callers,
    views_from_inside_agree,
};
