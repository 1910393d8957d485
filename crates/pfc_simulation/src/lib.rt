//! The machine simulates the source text: its whole runs are those of the source text.
//!
//! It promises that where every action of a run is kept, a machine that agrees with a configuration goes on agreeing with it for any number of actions: the
//! same processes act, the same bytes are printed, and the ending is the same. It has no code.
#![tactic(auto)]

mod laws;

pub use laws::{
    agreeing_machines_go_on_agreeing, machines_run_their_source, sessions_run_their_source,
};
