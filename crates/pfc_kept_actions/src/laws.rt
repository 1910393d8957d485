//! The law. The function does nothing: its contract is the law.
ghost use Rattle.std.specs.Prelude.{ℕ};
ghost use Rattle.pfc_semantics.specs.Configurations.{Config};
ghost use Rattle.pfc_semantics.specs.Remainders.{Action};
ghost use Rattle.pfc_semantics.specs.Selects.{choices};
ghost use Rattle.pfc_machines.specs.declared.machine.Machine.{Machine};
ghost use Rattle.pfc_run_rules.specs.Rules.{KeepsToRules};
ghost use Rattle.pfc_representation.specs.Levels.{Facts, program_in, LivingLevel};
ghost use Rattle.pfc_representation.specs.Acting.{IsActing, HasArrived};
ghost use Rattle.pfc_representation.specs.Actions.{IsChoice, IsKept};
ghost use Rattle.pfc_arrivals.specs.Arrivals.{IsNumbered};
ghost use Rattle.pfc_kept_actions.specs.Asked.{IsAsked};

/// Wherever the code of the process that acts has arrived at an action, of which this is told, the machine does what the action does in the source text, where
/// the run keeps to the rules and the objects of the program have the numbers of its image.
pub fn told_actions_are_kept()
    ensures { (facts : Facts) (m : Machine) (c : Config) (p choice : ℕ) (level : LivingLevel) (n : Action) → IsAsked facts c p choice level n
        → IsNumbered level → KeepsToRules (program_in facts) c p → IsActing facts m c p level → HasArrived facts m c p level n
        → IsChoice choice (choices (program_in facts) c p n) → IsKept facts m c p choice n }
{}
