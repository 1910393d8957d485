//! The plain values that every floor shares: places, names, texts, tokens, refusals and run-time faults.
//!
//! It promises that a name or a text is the list of its bytes, that a copy is equal, and that
//! `decimal` is the text of a number. It reads no program and knows nothing of trees or processes.
#![tactic(auto)]

mod faults;
mod memory_error;
mod names;
mod places;
pub mod sign;
mod texts;
mod tokens;
pub mod word;

pub use faults::{Refusal, RunFault};
pub use memory_error::Memory;
pub use names::Name;
pub use places::Place;
pub use texts::{Text, decimal};
pub use tokens::{Kind, Token};
