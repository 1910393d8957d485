//! Every run of a checked program is kept on the machine, and keeps to the rules of runs.
//!
//! It promises, of every lawful program in which no static rule is broken, whose numbers and whose input have the sizes that a text and bytes have, and whose
//! code the machine's addresses reach, that each action of each of its runs is kept, wherever the run comes. Below that law stand
//! those of a machine whose process has arrived at an action: that who resumes names a condition of the monitor whose variable holds it, that who requeues has
//! entered something in its innermost activation, and that who calls an entry gives variables for what the entry takes by reference; and that what rendezvous
//! ask of a configuration is told by what is kept of a run of the source text alone. It has no code.
#![tactic(auto)]

mod laws;

pub use laws::{
    accepts_are_told, calls_of_entries_pass_variables, checked_runs_are_kept,
    requeues_stand_inside, resumers_name_their_monitors,
};
