//! Invariants of runs of the source text, by what each asks of the text.
//!
//! It promises that what an invariant asks is kept by rewriting and by every action, wherever the names that lead on keep it: of names in view, by who performs
//! them; of accepts; of guards. With it goes that every number has 32 bits. Its law is that of operators and of what
//! is read and drawn; the rest is given to the
//! crates above, which say what they ask.
#![tactic(auto)]

mod laws;

pub use laws::operators_give_small_numbers;
