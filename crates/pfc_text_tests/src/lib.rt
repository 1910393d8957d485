//! Tests of the floor of texts: the tokens of texts, and trees that are read from tokens and written again.
//!
//! Texts that are refused are among the cases of `pfc_cases`. The crate has nothing else.
#![tactic(auto)]

#[cfg(test)]
mod scanning;
#[cfg(test)]
mod writing;
