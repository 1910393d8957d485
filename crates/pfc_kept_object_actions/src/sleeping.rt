//! Time, and the beginning of children. The function does nothing: its contract is the law.
ghost use Rattle.pfc_representation.specs.Actions.{AreKept};
ghost use Rattle.pfc_kept_object_actions.specs.Groups.{IsOfTime};

/// `sleep`, and the wait at `coend` with which children begin, keep the representation, also where a sleep ends in a fault.
pub fn waits_of_time_are_kept()
    ensures { AreKept IsOfTime }
{}
