//! A process that is picked comes to the action that is next in its source text: from where the machine represents a configuration, by quiet instructions.
//!
//! It promises that where all actions are kept such a process may act, that the machine agrees with the source text behind its action, that memory is
//! wanting only where the source text is at an action that may want it, and that the machine then represents the same configuration still: the process
//! may act again, or another first. It has no code.
#![tactic(auto)]

mod laws;

pub use laws::{
    actions_agree_with_their_steps, code_comes_to_actions,
    memory_is_wanting_only_of_calls_and_output, refused_memory_leaves_the_configuration,
    who_has_not_acted_may_act_again, who_is_picked_may_act,
};
