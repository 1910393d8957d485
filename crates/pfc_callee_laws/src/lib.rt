//! The blocks of a program that code calls or creates.
//!
//! It promises what a call or the creation of a process asks of the block that begins, in every lawful program in which no static rule is broken. It has
//! no code.
#![tactic(auto)]

mod laws;

pub use laws::{
    called_subs_are_nested, cells_are_counted, conditions_are_declared_in_main,
    functions_have_results, mains_bodies_stand, modules_have_their_procedures, processes_are_apart,
    subs_and_processes_have_blocks, subs_stand_where_declared,
};
