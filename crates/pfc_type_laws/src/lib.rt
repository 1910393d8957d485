//! Laws of the table of types that a program's declarations make. Each function does nothing: its contract is the law.
//!
//! It promises that a type stands behind those that it is made of, and so takes the cells of its parts, and that each takes a cell.
#![tactic(auto)]

mod laws;

pub use laws::{
    tables_are_built_up, tables_are_sound, types_of_variables_are_told, types_take_cells,
};
