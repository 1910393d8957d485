//! Each refusal has its words.
//!
//! It promises that the line of a refusal never lacks its words: each code of a rule that can be broken in a tree stands
//! in the table of refusals, and so does each code by which a text is refused before and behind the rules. It refuses
//! nothing and writes nothing itself.
#![tactic(auto)]

pub mod laws;
