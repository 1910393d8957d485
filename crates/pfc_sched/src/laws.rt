//! Laws on the definitions of picks: each function does nothing, and its contract is the law.
ghost use Rattle.pfc_sched.specs.Laws.{PicksReady, PicksAlike, TakesInOrder, Replays};

/// A pick that is a process names a ready one of the table.
pub fn a_pick_is_ready()
    ensures { PicksReady }
{}

/// The same state gives the same picks over the same standings.
pub fn picks_are_determined()
    ensures { PicksAlike }
{}

/// The numbers of a script are taken in order, one for each pick.
pub fn scripts_are_taken_in_order()
    ensures { TakesInOrder }
{}

/// The picks of a run, as a script, give the same picks over the same standings.
pub fn picks_can_be_replayed()
    ensures { Replays }
{}
