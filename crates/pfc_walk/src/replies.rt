//! What stops the top call.
ghost use Rattle.std.specs.Prelude.{◌≡◌};
ghost use Rattle.pfc_walk.specs.Answers.{ended as ended_by, stopped as stopped_by};

use pfc_base::Memory;
use pfc_io::Cut;

/// The status where the sink takes no more.
const WRITE_FAILED: u8 = 7;

/// The status for want of memory.
const NO_MEMORY: u8 = 8;

/// Why nothing more is written.
#[derive(Clone, Copy)]
pub(crate) enum Stop {
    /// The sink takes no more.
    WriteFailed,
    /// Memory is wanting.
    Memory,
}

impl From<Cut> for Stop {
    ghost use Rattle.std.specs.Prelude.{◌≡◌};
    ghost use Rattle.pfc_walk.specs.declared.replies.Stop.TheVariants.{WriteFailed};

    ghost from_gives = { λ _ stop. stop ≡ WriteFailed };

    fn from(_cut: Cut) -> Stop {
        Stop::WriteFailed
    }
}

impl From<Memory> for Stop {
    ghost use Rattle.std.specs.Prelude.{◌≡◌};
    ghost use Rattle.pfc_walk.specs.declared.replies.Stop.TheVariants.{Memory as NoMemory};

    ghost from_gives = { λ _ stop. stop ≡ NoMemory };

    fn from(_memory: Memory) -> Stop {
        Stop::Memory
    }
}

/// The status of a call that came to its end, or was stopped.
pub(crate) fn ended(reply: Result<u8, Stop>) -> u8
    ensures { result ≡ ended_by reply }
{
    match reply {
        Ok(status) => status,
        Err(stop) => stopped(stop),
    }
}

/// The status of a call that was stopped.
pub(crate) fn stopped(stop: Stop) -> u8
    ensures { result ≡ stopped_by stop }
{
    match stop {
        Stop::WriteFailed => WRITE_FAILED,
        Stop::Memory => NO_MEMORY,
    }
}
