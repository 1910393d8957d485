//! Tests of the code of checked trees: texts of all constructs with their code, which was worked out by hand or computed by the definitions.
//!
//! The crate has nothing else.
#![tactic(auto)]

#[cfg(test)]
mod codes;
#[cfg(test)]
mod constructs;
#[cfg(test)]
mod images;
