//! The laws.
ghost use Rattle.pfc_replays.specs.Laws.{ReplaysOptions, ReplaysText};

/// Where a run was not stopped by its script and every choice in it was the first, the outcome of the same text under the trace of that run
/// as the script is that run's: its status, and the bytes that are written. The same holds of the options and the files where a file holds
/// that script, and no more bytes than a script may have.
pub fn a_trace_gives_its_outcome()
    ensures text { ReplaysText }
    ensures options { ReplaysOptions }
{}
