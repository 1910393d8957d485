//! The laws.
ghost use Rattle.std.specs.Prelude.{◌≡◌, ◌<◌, ℕ, true, length, Some};
ghost use Rattle.pfc_world.specs.Holders.{holder_in};
ghost use Rattle.pfc_semantics.specs.Displays.{Spot};
ghost use Rattle.pfc_semantics.specs.Configurations.{Config};
ghost use Rattle.pfc_semantics.specs.Monitors.{is_inside};
ghost use Rattle.pfc_machines.specs.declared.machine.Machine.{Machine};
ghost use Rattle.pfc_representation.specs.Levels.{Facts, program_in, LivingLevel};
ghost use Rattle.pfc_representation.specs.Acting.{IsActing};
ghost use Rattle.pfc_kept_object_actions.specs.Groups.{HoldsToResume};
ghost use Rattle.pfc_holding_laws.specs.Inside.{IsInsideToResume, NamesItsMonitor};
ghost use Rattle.pfc_inside_laws.specs.Inside.{IsScoped, HasText, AreInside, IsAlive};
ghost use Rattle.pfc_representation.specs.Machines.{Represents};
ghost use Rattle.pfc_semantics.specs.Remainders.{Context, Remainder, resumes};
ghost use Rattle.pfc_semantics.specs.Steps.{next_of};
ghost use Rattle.pfc_state.specs.Stands.{Is_ready};
ghost use Rattle.pfc_world.specs.Tables.{at};

/// A process that acts holds each monitor that it has entered from outside and not yet left. So a child that is inside the monitor of a condition, where
/// somebody waits on it, holds that monitor when it resumes.
pub fn who_is_inside_holds()
    ensures holds { (facts : Facts) (m : Machine) (c : Config) (p n : ℕ) (level : LivingLevel) → IsActing facts m c p level
        → is_inside (program_in facts) c p n ≡ true → holder_in c.monitors n ≡ Some p }
    ensures resumes { (facts : Facts) (m : Machine) (c : Config) (p : ℕ) (level : LivingLevel) (v : Spot) → IsActing facts m c p level
        → IsInsideToResume (program_in facts) c p v → HoldsToResume facts c p v }
{}

/// Who acts, and who is ready, has living activations.
pub fn who_acts_is_alive()
    ensures acts { (facts : Facts) (m : Machine) (c : Config) (p : ℕ) (level : LivingLevel) → IsActing facts m c p level → IsAlive (program_in facts) c p }
    ensures ready { (facts : Facts) (m : Machine) (c : Config) (p : ℕ) → Represents facts m c → p < length c.activities → at c.table.rows p ≡ Is_ready
        → IsAlive (program_in facts) c p }
{}

/// A child that resumes holds the monitor of the condition, where somebody waits on it: in a program that is scoped as a checked one is, while each child is
/// inside each monitor whose text it performs, and where the condition that is named is of the monitor whose variable is named.
pub fn children_resume_as_holders()
    ensures { (facts : Facts) (m : Machine) (c : Config) (p : ℕ) (level : LivingLevel) (x : Context) (v : Spot) (k : Remainder) → IsActing facts m c p level
        → IsScoped (program_in facts) → HasText (program_in facts) → AreInside (program_in facts) c → next_of (program_in facts) c p ≡ resumes x v k
        → NamesItsMonitor (program_in facts) c p v → HoldsToResume facts c p v }
{}
