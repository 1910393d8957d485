//! Numbers of 32 bits in whole runs, as simulation asks for them. The function does nothing: its contract is the law.
//!
//! It promises that simulation may count on it for every checked program: wherever a run comes, `initial` and `delay` take such numbers. It tells of no
//! machine.
#![tactic(auto)]

mod laws;

pub use laws::checked_runs_take_numbers;
