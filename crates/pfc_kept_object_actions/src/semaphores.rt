//! Semaphores. The function does nothing: its contract is the law.
ghost use Rattle.pfc_representation.specs.Actions.{AreKept};
ghost use Rattle.pfc_kept_object_actions.specs.Groups.{IsOfSemaphore};

/// `initial`, `wait` and `signal` keep the representation, also where the process waits then, frees another, or ends in the fault of a count that is too
/// large or below 0.
pub fn semaphores_are_kept()
    ensures { AreKept IsOfSemaphore }
{}
