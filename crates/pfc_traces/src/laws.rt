//! The laws.
ghost use Rattle.pfc_traces.specs.Laws.{ActsWithin, ReadsBack, Replays};

/// A run that was not stopped by its script, and in which every choice was the first, is the run that its trace picks.
pub fn a_trace_replays_its_run()
    ensures { Replays }
{}

/// The text of a trace, read as a script, is its numbers.
pub fn a_trace_is_a_script()
    ensures { ReadsBack }
{}

/// Who acts in a run is one of the processes of the table with which it began.
pub fn who_acts_is_a_process()
    ensures { ActsWithin }
{}
