//! Conditions of monitors. The functions do nothing: their contracts are the laws.
ghost use Rattle.std.specs.Prelude.{ℕ};
ghost use Rattle.pfc_semantics.specs.Configurations.{Config};
ghost use Rattle.pfc_semantics.specs.Displays.{Spot};
ghost use Rattle.pfc_semantics.specs.Remainders.{Context, Remainder, resumes};
ghost use Rattle.pfc_machines.specs.declared.machine.Machine.{Machine};
ghost use Rattle.pfc_representation.specs.Levels.{Facts, LivingLevel};
ghost use Rattle.pfc_representation.specs.Acting.{IsActing, HasArrived};
ghost use Rattle.pfc_representation.specs.Actions.{IsKept, AreKept};
ghost use Rattle.pfc_kept_object_actions.specs.Groups.{IsOfCondition, HoldsToResume};

/// `delay` and `empty` keep the representation, also where the monitor passes to a resumer, to an entrant or to nobody.
pub fn conditions_are_kept()
    ensures { AreKept IsOfCondition }
{}

/// So does `resume`, by main, and by a child that holds the monitor where somebody waits on the condition: that one has it then, and the process waits as a
/// resumer.
pub fn resumes_by_holders_are_kept()
    ensures { (facts : Facts) (m : Machine) (c : Config) (p choice : ℕ) (level : LivingLevel) (x : Context) (v : Spot) (k : Remainder)
        → IsActing facts m c p level → HasArrived facts m c p level (resumes x v k) → HoldsToResume facts c p v
        → IsKept facts m c p choice (resumes x v k) }
{}
