//! Alternatives of selects.
ghost use Rattle.std.specs.Prelude.{◌≡◌, length};
ghost use Rattle.pfc_machines.specs.Offers.{arm_of, listed_arm, words_in, is_sought};

use pfc_world::Arm;

/// What an alternative of a select offers. Channels and entries count from 0; sizes are in cells.
#[derive(Clone, Copy, Debug, PartialEq, Eq)]
pub enum Offer {
    /// to send a message of so many cells, whose words are kept beside the alternatives
    Send { channel: u32, size: u32 },
    /// to receive a message of so many cells at an address, as a word; without cells there is no address, and the word is 0
    Receive { channel: u32, size: u32, to: i64 },
    /// to accept an entry, whose arguments go to so many cells of the process's first activation from a cell on
    Accept { entry: u32, cell: u32, size: u32 },
    /// to go on after so many seconds
    Timeout { seconds: u64 },
    /// to finish
    Terminate,
}

/// An open alternative: the activation that made it, counted from 1 among those of the process, what it offers, and the address at which
/// the process goes on where it is taken; for `terminate` that is 0.
#[derive(Clone, Copy, Debug, PartialEq, Eq)]
pub struct Alternative {
    pub activation: u32,
    pub offer: Offer,
    pub branch: u32,
}

/// An alternative that is kept, and how many words of messages are kept above those of its own.
#[derive(Clone, Copy, Debug, PartialEq, Eq)]
pub struct KeptAlternative {
    pub alternative: Alternative,
    pub above: usize,
}

/// What is looked for among alternatives.
#[derive(Clone, Copy, Debug, PartialEq, Eq)]
pub enum Sought {
    /// one that is open to this
    OpenTo(Arm),
    /// a `timeout`
    Delay,
    /// a `terminate`
    End,
}

impl Offer {
    /// The alternative as the table of processes has it: None for `timeout` and `terminate`.
    pub fn arm(self) -> Option<Arm>
        ensures { result ≡ arm_of self }
    {
        match self {
            Offer::Send { channel, .. } => Some(Arm::Send(channel)),
            Offer::Receive { channel, .. } => Some(Arm::Receive(channel)),
            Offer::Accept { entry, .. } => Some(Arm::Accept(entry)),
            Offer::Timeout { .. } => None,
            Offer::Terminate => None,
        }
    }

    /// How many arms it gives to that table: one or none.
    pub(crate) fn arms(self) -> usize
        ensures { result ≡ length (listed_arm (arm_of self)) }
    {
        match self.arm() {
            Some(_) => 1,
            None => 0,
        }
    }

    /// How many words of a message are kept of it.
    pub(crate) fn words(self) -> u32
        ensures { result ≡ words_in self }
    {
        match self {
            Offer::Send { size, .. } => size,
            _ => 0,
        }
    }

    /// It is of this kind.
    pub(crate) fn is(self, sought: Sought) -> bool
        ensures { result ≡ is_sought sought self }
    {
        match sought {
            Sought::OpenTo(arm) => match self.arm() {
                Some(other) => other.is_same(arm),
                None => false,
            },
            Sought::Delay => match self {
                Offer::Timeout { .. } => true,
                _ => false,
            },
            Sought::End => match self {
                Offer::Terminate => true,
                _ => false,
            },
        }
    }
}
