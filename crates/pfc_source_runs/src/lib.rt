//! Checked programs on the machine: each runs as its source text does.
//!
//! It promises, of every checked program whose code the machine's addresses reach and whose numbers have 32 bits, that its image starts; and over an input of
//! bytes that who is picked may act in each of any number of actions, that the run is the source text's own, and what the machine stands for where a run was
//! broken off. It has no code.
#![tactic(auto)]

mod laws;

pub use laws::checked_programs_run;
