//! Actions on objects and on time keep the representation: semaphores, conditions of monitors, `sleep`, and the wait at `coend`.
//!
//! It promises too that a process which another frees keeps its clause. It has no code.
#![tactic(auto)]

mod conditions;
mod freeing;
mod semaphores;
mod sleeping;

pub use conditions::{conditions_are_kept, resumes_by_holders_are_kept};
pub use freeing::who_is_freed_is_kept;
pub use semaphores::semaphores_are_kept;
pub use sleeping::waits_of_time_are_kept;
