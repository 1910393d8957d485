//! The laws. The functions do nothing: their contracts are the laws.
ghost use Rattle.pfc_representation.specs.Actions.{AreKept};
ghost use Rattle.pfc_kept_lives.specs.Groups.{EndsProcess, CreatesProcess};

/// Where the body of a process ends, the process ends on both sides: its variables are gone, and main goes on behind `coend` where it was the last child. The
/// end of main is that of the run.
pub fn ends_are_kept()
    ensures { AreKept EndsProcess }
{}

/// Where a process is created, it has the same first activation on both sides, with its arguments; or both find that it is active, or that its block has too
/// many cells.
pub fn creations_are_kept()
    ensures { AreKept CreatesProcess }
{}
