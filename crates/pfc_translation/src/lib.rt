//! The image of a checked tree, for every construct of the language.
//!
//! Its definitions say what code a phrase has, one clause a phrase, and what an image holds beside its code. It has no code of its own.
#![tactic(auto)]
