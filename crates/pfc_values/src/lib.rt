//! The values of simple types: what operators and functions give of them, how they are printed, and how they are read.
//!
//! It promises that each operator, each function, each output piece and each input item is the one that the definitions
//! state, with the fault in which an evaluation ends. It knows no variable, no instruction and no process.
#![tactic(auto)]

mod digits;
mod input;
mod integers;
mod items;
mod laws;
mod lines;
mod ordinals;
mod output;
mod pieces;
mod simple;
mod truths;

pub use input::Input;
pub use integers::{
    difference, magnitude, negative, odd, product, quotient, remainder, square, sum,
};
pub use laws::integers_are_read_as_they_are_put;
pub use ordinals::{char_at, next_value, value_before};
pub use output::Output;
pub use pieces::PieceFault;
pub use simple::Simple;
pub use truths::{both, either, inverse, is_true, truth};
