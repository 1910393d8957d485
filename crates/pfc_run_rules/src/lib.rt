//! What runs of checked programs keep to: who is in a monitor or a resource, and whose guards are tried.
//!
//! It says what this is, in terms of the source text's own runs. It has no code.
#![tactic(auto)]
