//! What the top call answers, and what stops it.
ghost use Rattle.std.specs.Prelude.{◌≡◌, None};
ghost use Rattle.pfc_top.specs.Answers.{ended, stopped};

use pfc_base::Memory;
use pfc_io::Cut;
use pfc_sessions::Session;

/// The status where the sink takes no more.
const WRITE_FAILED: u8 = 7;

/// The status for want of memory.
const NO_MEMORY: u8 = 8;

/// What the top call answers.
#[derive(Drop)]
pub struct Answer {
    /// The status of the program.
    pub status: u8,
    /// The session that made the run, as it stands at the run's end. There is none where nothing ran, and none where the
    /// sink took no more or memory was wanting.
    pub session: Option<Session>,
}

impl Answer {
    /// The answer where nothing ran.
    pub(crate) fn without_run(status: u8) -> Answer
        ensures { result ≡ record { status = status; session = None } }
    {
        Answer {
            status,
            session: None,
        }
    }
}

/// Why nothing more is written.
#[derive(Clone, Copy)]
pub(crate) enum Stop {
    /// The sink takes no more.
    WriteFailed,
    /// Memory is wanting.
    Memory,
}

impl From<Cut> for Stop {
    ghost use Rattle.std.specs.Prelude.{◌≡◌};
    ghost use Rattle.pfc_top.specs.declared.replies.Stop.TheVariants.{WriteFailed};

    ghost from_gives = { λ _ stop. stop ≡ WriteFailed };

    fn from(_cut: Cut) -> Stop {
        Stop::WriteFailed
    }
}

impl From<Memory> for Stop {
    ghost use Rattle.std.specs.Prelude.{◌≡◌};
    ghost use Rattle.pfc_top.specs.declared.replies.Stop.TheVariants.{Memory as NoMemory};

    ghost from_gives = { λ _ stop. stop ≡ NoMemory };

    fn from(_memory: Memory) -> Stop {
        Stop::Memory
    }
}

/// The answer of a call that came to its end, or was stopped.
pub(crate) fn ended(reply: Result<Answer, Stop>) -> Answer
    ensures { result ≡ ended reply }
{
    match reply {
        Ok(answer) => answer,
        Err(stop) => stopped(stop),
    }
}

/// The answer of a call that was stopped.
pub(crate) fn stopped(stop: Stop) -> Answer
    ensures { result ≡ stopped stop }
{
    Answer::without_run(match stop {
        Stop::WriteFailed => WRITE_FAILED,
        Stop::Memory => NO_MEMORY,
    })
}
