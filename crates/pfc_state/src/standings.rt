//! What a process stands at, as others see it.
use crate::Why;

/// The standing of a process. Who acts is shown as ready.
#[derive(Clone, Copy, Debug, PartialEq, Eq)]
pub enum State {
    Idle,
    Created,
    Ready,
    Waiting(Why),
    Done,
}

/// The standing of one process at the end of a run: its number from 0, main being 0, its state, and
/// the line from 1 of its last action.
#[derive(Clone, Copy, Debug, PartialEq, Eq)]
pub struct Standing {
    pub process: u32,
    pub state: State,
    pub line: u32,
}
