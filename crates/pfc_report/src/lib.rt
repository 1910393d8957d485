//! The texts that a user reads: the report of a run's ending, the line of a refusal, and the listing of a text.
//!
//! It promises that each is, byte for byte, the text that the definitions of `specs/` give. It decides nothing:
//! which ending, refusal or standing there is, the floors below have said.
#![tactic(auto)]

mod listings;
mod refusals;
mod reports;

pub use listings::listing;
pub use refusals::{refusal_line, refusal_text, words_refused};
pub use reports::report;
