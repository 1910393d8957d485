//! What a process may wait for.
ghost use Rattle.std.specs.Prelude.{◌≡◌};
ghost use Rattle.pfc_state.specs.Waits.{same_why, same_arm};

/// The cause of a wait. Numbers of semaphores, channels, monitors, conditions and resources count
/// from 0 in the order of the program's layout; those of entries and guarded procedures count from 0
/// in their own process or resource; a moment is in units of the clock.
#[derive(Clone, Copy, Debug, PartialEq, Eq)]
pub enum Why {
    /// `coend`: until every child has finished
    Coend,
    /// `wait` on a semaphore whose count is 0
    Semaphore(u32),
    /// a message to a channel, until somebody receives it
    Send(u32),
    /// a message from a channel, until somebody sends it
    Receive(u32),
    /// a call of an entry of the process `owner`, until it is accepted
    Call { owner: u32, entry: u32 },
    /// a rendezvous with a process that has accepted the call
    Meeting(u32),
    /// an `accept` of an own entry, until somebody calls it
    Accept(u32),
    /// a `select`, until one of its arms is met, or its due moment comes, or all of its kin may end
    Select { due: Option<u64>, terminate: bool },
    /// entering a monitor that is held
    Enter(u32),
    /// a condition of a monitor, by `delay`, with a rank: who waits there with the least rank goes on first
    Condition { number: u32, rank: i32 },
    /// a monitor that this process gave up by `resume`
    Resumer(u32),
    /// entering a resource that is held
    Entrant(u32),
    /// a guarded procedure of a resource, whose guard was false
    Barred { resource: u32, procedure: u32 },
    /// `sleep`, until a due moment
    Sleep(u64),
}

/// An open alternative of a `select`: a channel to send to or to receive from, or an own entry.
#[derive(Clone, Copy, Debug, PartialEq, Eq)]
pub enum Arm {
    Send(u32),
    Receive(u32),
    Accept(u32),
}

impl Why {
    /// Whether both are the same cause, with the same numbers.
    pub fn is_same(self, other: Why) -> bool
        ensures { result ≡ same_why self other }
    {
        self == other
    }
}

impl Arm {
    /// Whether both are the same alternative.
    pub fn is_same(self, other: Arm) -> bool
        ensures { result ≡ same_arm self other }
    {
        self == other
    }
}
