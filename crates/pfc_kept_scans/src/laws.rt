//! The laws. The functions do nothing: their contracts are the laws.
ghost use Rattle.std.specs.Prelude.{ℕ};
ghost use Rattle.pfc_semantics.specs.Configurations.{Config};
ghost use Rattle.pfc_semantics.specs.Remainders.{Context, Scan, Tried, Remainder, scans, passes};
ghost use Rattle.pfc_machines.specs.declared.machine.Machine.{Machine};
ghost use Rattle.pfc_representation.specs.Levels.{Facts, LivingLevel};
ghost use Rattle.pfc_representation.specs.Acting.{IsActing, HasArrived};
ghost use Rattle.pfc_representation.specs.Actions.{IsKept, AreKept};
ghost use Rattle.pfc_kept_scans.specs.Groups.{AreBarredAtTheirOwn, HasLeft, IsBarring};

/// A turn of a scan keeps the representation: the same barred process is found, and the process goes on at that one's guard and sees what it sees; or nobody is
/// found, and the process leaves the resource to the same entrant, or tries its own guard.
pub fn turns_of_scans_are_kept()
    ensures { (facts : Facts) (m : Machine) (c : Config) (p choice : ℕ) (level : LivingLevel) (x : Context) (scan : Scan) (k : Remainder)
        → AreBarredAtTheirOwn facts c → HasLeft facts c p scan scan.way → IsActing facts m c p level
        → HasArrived facts m c p level (scans x scan k) → IsKept facts m c p choice (scans x scan k) }
{}

/// So does a false guard of the own procedure: the process is barred there, and the first entrant has the resource, or nobody.
pub fn bars_are_kept()
    ensures { AreKept IsBarring }
{}

/// So does a true guard of a barred process: that one has the resource and is ready at its body, and the process goes on behind its scan, or is barred at the
/// procedure to which it has requeued.
pub fn passes_are_kept()
    ensures { (facts : Facts) (m : Machine) (c : Config) (p choice : ℕ) (level : LivingLevel) (x : Context) (whom : Tried) (scan : Scan) (k : Remainder)
        → HasLeft facts c p scan scan.way → IsActing facts m c p level → HasArrived facts m c p level (passes x whom scan k)
        → IsKept facts m c p choice (passes x whom scan k) }
{}
