//! Output pieces: their faults, and the blanks before them.
ghost use Rattle.std.specs.Prelude.{◌≡◌, ◌≤◌, IfOk};
ghost use Rattle.pfc_values.specs.Pieces.{margin};

use pfc_base::RunFault;
use std::alloc::AllocError;

/// Why a piece is not put.
#[derive(Clone, Copy, Debug, PartialEq, Eq)]
pub enum PieceFault {
    /// The fault of the run: a width outside 0 to 255.
    Fault(RunFault),
    /// Memory was refused.
    Memory,
}

impl From<RunFault> for PieceFault {
    ghost use Rattle.std.specs.Prelude.{◌≡◌};
    ghost use Rattle.pfc_values.specs.declared.pieces.PieceFault.TheVariants as fault;

    ghost from_gives = { λ run f. f ≡ fault.Fault run };

    fn from(fault: RunFault) -> PieceFault {
        PieceFault::Fault(fault)
    }
}

impl From<AllocError> for PieceFault {
    ghost use Rattle.std.specs.Prelude.{◌≡◌};
    ghost use Rattle.pfc_values.specs.declared.pieces.PieceFault.TheVariants as fault;

    ghost from_gives = { λ _ f. f ≡ fault.Memory };

    fn from(_error: AllocError) -> PieceFault {
        PieceFault::Memory
    }
}

/// How many blanks stand before a piece of `length` bytes. A width is from 0 to 255.
pub(crate) fn margin(width: Option<i64>, length: usize) -> Result<usize, RunFault>
    ensures value { result ≡ margin width length }
    ensures bound { IfOk result (λ n. n ≤ 255) }
{
    match width {
        None => Ok(0),
        Some(w) if (0..=255).contains(&w) => Ok((w as usize).saturating_sub(length)),
        Some(_) => Err(RunFault::Width),
    }
}
