//! What a scan gives.

use pfc_base::{Memory, Place, Refusal, Token};
use std::alloc::AllocFailed;

/// The tokens of a text in their order, and the place after its last byte.
#[derive(Drop)]
pub struct Scanned {
    pub tokens: Vec<Token>,
    pub end: Place,
}

/// Why a text has no tokens.
#[derive(Clone, Copy, Debug, PartialEq, Eq)]
pub enum ScanFault {
    /// The text is refused: a code from 101 to 106, and the first byte of what is refused.
    Refused(Refusal),
    /// Memory was refused.
    Memory,
}

impl From<Memory> for ScanFault {
    ghost use Rattle.std.specs.Prelude.{◌≡◌};
    ghost use Rattle.pfc_scan.specs.declared.scanned.ScanFault.TheVariants as fault;

    ghost from_gives = { λ _ f. f ≡ fault.Memory };

    fn from(_memory: Memory) -> ScanFault {
        ScanFault::Memory
    }
}

impl<T: Drop> From<AllocFailed<T>> for ScanFault {
    ghost use Rattle.std.specs.Prelude.{◌≡◌};
    ghost use Rattle.pfc_scan.specs.declared.scanned.ScanFault.TheVariants as fault;

    ghost from_gives = { λ _ f. f ≡ fault.Memory };

    fn from(_error: AllocFailed<T>) -> ScanFault {
        ScanFault::Memory
    }
}
