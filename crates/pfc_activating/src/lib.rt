//! Activations: how a call begins one.
//!
//! It promises that a call of a procedure or a function of the program is the action of the definitions, and that a process which enters a
//! block in any other way has the activation of the definitions above its others, with its arguments in it. A call that is refused memory
//! changes nothing that is to be seen, and its arguments are given back. It hands no monitor or resource over, and ends no activation.
#![tactic(auto)]

mod arguments;
mod bodies;
mod calls;
mod cells;
mod ending;
mod entering;

pub use arguments::passed;
pub use bodies::at_body;
pub use calls::{calls_function, calls_procedure};
pub use cells::{cells_above, cells_for};
pub use ending::end_at;
pub use entering::{Beginning, Entry, Waits, activate, prepare};
