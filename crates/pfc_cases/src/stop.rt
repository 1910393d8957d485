//! What ends the program early.

use pfc_base::Memory;
use pfc_io::{Cut, LoadFault};
use std::alloc::{AllocError, AllocFailed};

/// A file could not be read or the output not be written, a line is not in form, or memory is wanting.
#[derive(Drop)]
pub(crate) struct Stop;

impl From<AllocError> for Stop {
    fn from(_error: AllocError) -> Stop {
        Stop
    }
}

impl<T: Drop> From<AllocFailed<T>> for Stop {
    fn from(_error: AllocFailed<T>) -> Stop {
        Stop
    }
}

impl From<Memory> for Stop {
    fn from(_error: Memory) -> Stop {
        Stop
    }
}

impl From<LoadFault> for Stop {
    fn from(_fault: LoadFault) -> Stop {
        Stop
    }
}

impl From<Cut> for Stop {
    fn from(_cut: Cut) -> Stop {
        Stop
    }
}
