//! Semaphores and channels.
//!
//! It promises that each call does to the standings and the counts what the language says of the action, that a signal
//! and a message go to who has waited longest, and that no call but `Semaphores::new` takes memory. It walks over no
//! processes, and moves no value: the caller writes a message to its receiver.
#![tactic(auto)]

mod channels;
mod laws;
mod semaphores;

pub use channels::{Passed, receive, send};
pub use laws::a_signal_frees_the_first_alone;
pub use semaphores::{Semaphores, sem_initial, sem_signal, sem_wait};
