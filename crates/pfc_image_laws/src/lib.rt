//! Laws of the image of a program. Each function does nothing: its contract is the law.
//!
//! It promises what the definition of an image says of statements, bodies and blocks wherever they stand. It makes no code.
#![tactic(auto)]

mod laws;

pub use laws::{
    bodies_end, images_are_laid_out, levels_are_reached, modules_are_numbered,
    statements_stay_within,
};
