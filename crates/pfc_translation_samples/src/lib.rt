//! Samples of the image of a program.
#![tactic(auto)]
