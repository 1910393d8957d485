//! Laws of the order in which a program declares its names. Each function does nothing: its contract is the law.
//!
//! It promises that what stands among the first names of a program, as they are counted at one of its parts, was declared before that part: the scopes of subs
//! and modules that are named so come before its own; and that the
//! blocks of a part see no others of the program. It knows no statement.
#![tactic(auto)]

mod laws;

pub use laws::{blocks_stand_in_their_parts, names_were_declared_before};
