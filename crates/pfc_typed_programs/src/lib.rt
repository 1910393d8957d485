//! Laws of bodies of programs in which no static rule is broken. Each function does nothing: its contract is the law.
//!
//! It promises that each body of such a program, and each guard, has the shapes that its code needs, and so that where the program's image stands its
//! code performs them, for whoever sees the variables and objects that are in view there.
#![tactic(auto)]

mod laws;

pub use laws::{
    accepts_have_entries, bodies_are_typed, called_blocks_stand, checked_bodies_are_performed,
    headings_have_blocks, names_are_checked,
};
