//! Laws of the names that declarations make. Each function does nothing: its contract is the law.
//!
//! It promises that declarations are made of a few kinds of steps, so that what each step keeps holds of every program, and that what a name
//! stands for has its heading, and is faulty only where a rule is broken. It speaks of no statement.
#![tactic(auto)]

mod laws;

pub use laws::{
    declarations_are_steps, headings_are_whole, names_are_numbered, no_name_is_faulty,
    processes_are_numbered,
};
