//! The activation of processes.
//!
//! It promises that `p(args)` is the action of the definitions: the process is created, at its body in its first activation with the arguments
//! in it; the faults are that of a process which has not finished, and that of too many cells. An activation that is refused memory changes
//! nothing that is to be seen, and what it was given is given back. It makes no process ready.
#![tactic(auto)]

mod activation;
mod numbers;

pub use activation::creates;
