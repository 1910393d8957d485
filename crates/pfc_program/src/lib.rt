//! What is known of each body of a program before anything runs.
//!
//! It promises the blocks of a checked tree, each with its statements, the names in view, its variables and their cells, as the
//! definition of programs says, and what a name means there. It runs nothing, and knows no value and no instruction.
#![tactic(auto)]

mod blocks;
mod counts;
mod index;
mod inits;
mod layouts;
mod lookups;
mod modules;
mod names;
mod phrases;
mod places;
mod program;
mod spots;
mod tables;
mod walk;

pub use blocks::{Block, Guard};
pub use counts::{
    behind_accept, behind_alt, behind_alts, behind_arms, behind_body, behind_comm, behind_stmt,
    behind_stmts,
};
pub use index::Index;
pub use layouts::sub_with;
pub use lookups::Lookups;
pub use modules::module_number;
pub use names::{Level, Names, find};
pub use phrases::{are_labels, constant_value, is_label, names_any};
pub use program::Program;
pub use spots::NamedSpot;
pub use tables::Tables;
