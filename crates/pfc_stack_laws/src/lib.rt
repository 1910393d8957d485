//! Instructions of the stacks alone do on the stacks what the source text has them do.
//!
//! It promises that a quiet instruction leads where the laws on standing code have it lead, and that reads, writes
//! and turns give and leave what the store of the
//! source text has. It has no code, and knows no other process.
#![tactic(auto)]

mod laws;

pub use laws::{
    quiet_instructions_lead_on, turns_lead_back, variables_are_read, variables_are_written,
};
