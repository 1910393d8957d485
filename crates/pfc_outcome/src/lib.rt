//! What the words ask for, and what words and files come to.
//!
//! It promises that the options of each command are the stated function of its words, and that files are loaded in their order. Its definitions
//! say, case by case, what words and files come to; the run of a program is handed to them. It runs nothing.
#![tactic(auto)]

mod laws;
mod loading;
mod making;
mod options;
mod walk_options;

pub use laws::an_outcome_is_one;
pub use loading::{Loaded, load_asked, load_files};
pub use making::make_text;
pub use options::{Options, Source, read_words};
pub use walk_options::{Shown, WalkOptions, read_walk_words};
