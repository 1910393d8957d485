//! Want of memory, as an answer.
use std::alloc::{AllocError, AllocFailed};

/// The answer that memory was refused. It is always an answer of its own, beside a call's other refusals.
#[derive(Clone, Copy, Debug, PartialEq, Eq)]
pub struct Memory;

impl From<AllocError> for Memory {
    fn from(_error: AllocError) -> Memory {
        Memory
    }
}

impl<T: Drop> From<AllocFailed<T>> for Memory {
    fn from(_error: AllocFailed<T>) -> Memory {
        Memory
    }
}
