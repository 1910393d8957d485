//! The code of a process follows its source text: where it stands for what the process has still to do, quiet instructions lead to the action that comes next,
//! and behind that action it stands for what is left.
//!
//! It promises that of statements, those that hold others among them, and of what is left behind one; of selects, whose alternatives are gone through up to the
//! decision, and whose branch that is taken performs what is left; of what is awaited, once the value or the address is on top; and of the whole, where the
//! quiet instructions are no more than addresses lie between. It has no code of its own.
#![tactic(auto)]

mod laws;

pub use laws::{
    accepts_follow, actions_lead_on, alternatives_follow, branches_lead_on, case_statements_follow,
    cobegins_follow, code_follows_source, ends_of_passes_follow, every_statement_follows,
    for_statements_follow, if_statements_follow, lists_follow, locations_follow, loops_follow,
    meetings_lead_on, remainders_follow, select_statements_follow, selects_follow,
    single_statements_follow, values_follow,
};
