//! The laws.
ghost use Rattle.pfc_races.specs.Laws.{AreFew, AreItsActions, AreKept};

/// The steps of a run are the actions that the run tells, one by one.
pub fn steps_are_the_actions_of_a_run()
    ensures { AreItsActions }
{}

/// A run has no more events than actions that it may do.
pub fn events_are_few()
    ensures { AreFew }
{}

/// The events that are kept step by step are those of the steps.
pub fn events_are_kept_step_by_step()
    ensures { AreKept }
{}
