//! Laws of rendezvous, selects and the end of servers: each is the contract of a call that does nothing.
ghost use Rattle.std.specs.Prelude.{◌≡◌, ◌≢◌, ℕ, Bool, Some, Option, List, [], slice_set};
ghost use Rattle.pfc_state.specs.declared.waits.Arm.{Arm};
ghost use Rattle.pfc_state.specs.Stands.{Stand, Is_ready};
ghost use Rattle.pfc_world.specs.Channels.{received, sent};
ghost use Rattle.pfc_world.specs.Partners.{partner};
ghost use Rattle.pfc_world.specs.Rendezvous.{accepted, called};
ghost use Rattle.pfc_world.specs.Selects.{communicated, matched, select_waited};
ghost use Rattle.pfc_world.specs.Tables.{Table, at, start_table};
ghost use Rattle.pfc_world.specs.Terminating.{finally_settled};
ghost use Rattle.pfc_meet.specs.Unpaired.{AreElsewhere, AreUnpaired, IsElsewhere};

/// Where every wait was begun by these actions, no two processes wait on opposite sides of one channel, and no caller
/// waits for an entry that its owner waits to accept: so it is where all begins, the process that acts, and so stands as
/// ready, keeps this by each action, and so does every change of standings, of one or of many, to those that wait for no
/// message and no meeting to begin.
pub fn nobody_waits_for_one_who_waits_for_it()
    ensures start { (n room : ℕ) → AreUnpaired (start_table n room).rows }
    ensures changes { (rows next : List Stand) → AreElsewhere rows next → AreUnpaired rows → AreUnpaired next }
    ensures elsewhere { (rows : List Stand) (p : ℕ) (stand : Stand) → IsElsewhere stand → AreUnpaired rows → AreUnpaired (slice_set rows p stand) }
    ensures send { (w : Table) (p c : ℕ) → AreUnpaired w.rows → AreUnpaired (sent w p c).rows }
    ensures receive { (w : Table) (p c : ℕ) → AreUnpaired w.rows → AreUnpaired (received w p c).rows }
    ensures call { (w : Table) (p owner entry : ℕ) → AreUnpaired w.rows → AreUnpaired (called w p owner entry).rows }
    ensures accept { (w : Table) (p entry : ℕ) → AreUnpaired w.rows → AreUnpaired (accepted w p entry).rows }
    ensures commit { (w : Table) (p : ℕ) (arm : Arm) → AreUnpaired w.rows → AreUnpaired (communicated w p arm).rows }
    ensures wait { (w : Table) (p : ℕ) (arms : List Arm) (due : Option ℕ) (terminate : Bool) → matched w.rows p arms ≡ [] → AreUnpaired w.rows →
        AreUnpaired (select_waited w p arms due terminate).rows }
{}

/// A process that acts, and so stands as ready, is never its own partner.
pub fn a_partner_is_another_process()
    ensures { (rows : List Stand) (p q : ℕ) (arm : Arm) → at rows p ≡ Is_ready → partner rows p arm ≡ Some q → q ≢ p }
{}

/// The third step of settling, done twice, is done once.
pub fn processes_terminate_once()
    ensures { (w : Table) → finally_settled (finally_settled w) ≡ finally_settled w }
{}
