//! Why no image is made.
ghost use Rattle.std.specs.Prelude.{◌≡◌};

use pfc_base::Memory;
use pfc_emit::EmitFault;
use std::alloc::AllocFailed;

/// Why no image is made.
#[derive(Clone, Copy, Debug, PartialEq, Eq)]
pub enum GenFault {
    /// It has more than 200,000 instructions.
    TooLarge,
    /// Memory was refused; or a number has more than 32 bits, as that of a string, which no checked tree reaches.
    Memory,
}

impl From<Memory> for GenFault {
    ghost use Rattle.pfc_generator.specs.declared.faults.GenFault.TheVariants as fault;

    ghost from_gives = { λ _ f. f ≡ fault.Memory };

    fn from(_memory: Memory) -> GenFault {
        GenFault::Memory
    }
}

impl<T: Drop> From<AllocFailed<T>> for GenFault {
    fn from(_error: AllocFailed<T>) -> GenFault {
        GenFault::Memory
    }
}

impl From<EmitFault> for GenFault {
    fn from(fault: EmitFault) -> GenFault {
        match fault {
            EmitFault::Full => GenFault::TooLarge,
            EmitFault::Memory => GenFault::Memory,
        }
    }
}
