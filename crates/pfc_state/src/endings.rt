//! How a run ends.
use pfc_base::RunFault;

/// The ending of a run.
#[derive(Clone, Copy, Debug, PartialEq, Eq)]
pub enum Ending {
    /// main has finished
    Finished,
    /// an action was a fault: its process, its line from 1, and the fault
    Fault {
        process: u32,
        line: u32,
        fault: RunFault,
    },
    /// main has not finished, and nobody is ready or ever will be
    Deadlock,
    /// this many actions were done, as many as were allowed
    Limit(u64),
    /// the script gave no ready process: the number of its item, from 1, and the reason
    Script {
        item: u64,
        why: ScriptWhy,
    },
    /// the sink took no more bytes
    SinkFailed,
    /// memory was refused
    Memory,
}

/// Why a script gave no ready process.
#[derive(Clone, Copy, Debug, PartialEq, Eq)]
pub enum ScriptWhy {
    /// the item names this process, which is not ready
    NotReady(u32),
    /// no process has this number
    NoProcess(u32),
    /// the script has no further item
    Ended,
    /// the item is not a number
    NotANumber,
}
