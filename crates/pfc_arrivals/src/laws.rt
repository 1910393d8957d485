//! The laws. The functions do nothing: their contracts are the laws.
ghost use Rattle.std.specs.Prelude.{◌≡◌, ℕ, List, Result, Some, true};
ghost use Rattle.pfc_base.specs.declared.memory_error.Memory.{Memory};
ghost use Rattle.pfc_sched.specs.Picks.{Picking};
ghost use Rattle.pfc_code.specs.declared.instructions.Instr.{Instr};
ghost use Rattle.pfc_semantics.specs.Configurations.{Config};
ghost use Rattle.pfc_semantics.specs.Steps.{next_of};
ghost use Rattle.pfc_machines.specs.declared.machine.Machine.{Machine};
ghost use Rattle.pfc_machines.specs.Actions.{at_rest};
ghost use Rattle.pfc_translation.specs.Images.{image_of};
ghost use Rattle.pfc_machine_acts.specs.declared.acts.ActionEnd.{ActionEnd};
ghost use Rattle.pfc_machine_acts.specs.Acting.{IsActed, choice_among};
ghost use Rattle.pfc_machine_acts.specs.Performing.{choices_for, may_want_memory};
ghost use Rattle.pfc_machine_acts.specs.Quietly.{next_instr};
ghost use Rattle.pfc_run_rules.specs.Rules.{KeepsToRules};
ghost use Rattle.pfc_representation.specs.Acting.{IsActing, HasArrived};
ghost use Rattle.pfc_representation.specs.Levels.{Facts, program_in, LivingLevel};
ghost use Rattle.pfc_representation.specs.Machines.{Represents};
ghost use Rattle.pfc_arrivals.specs.Arrivals.{IsAboutToAct, ComesToAction, ComesAndStays, ActsAsItsSource, HasAgreed, AreNumbered, IsNextKept};
ghost use Rattle.pfc_arrivals.specs.Wants.{MayWantMemory};

/// Where the machine represents a configuration, the code of a process that is ready goes by quiet instructions to the action that comes next in its source
/// text.
pub fn code_comes_to_actions()
    ensures { (facts : Facts) (m : Machine) (c : Config) (p : ℕ) → Represents facts m c → IsAboutToAct facts m c p → ComesToAction facts m c p }
{}

/// Where its next action is kept, in a program whose objects have the numbers of its image, and the run keeps to the rules, such a process may act, and does
/// on the machine what it does in the source text.
pub fn who_is_picked_may_act()
    ensures { (facts : Facts) (m : Machine) (c : Config) (p : ℕ) (picking : Picking)
        → IsNextKept facts c p → AreNumbered facts → KeepsToRules (program_in facts) c p → Represents facts m c → IsAboutToAct facts m c p
        → ActsAsItsSource facts m c p picking }
{}

/// Whoever has come to its action and has not done it, where the machine represents the same configuration, may act again from there, and does then what it
/// does in the source text.
pub fn who_has_not_acted_may_act_again()
    ensures { (facts : Facts) (m : Machine) (c : Config) (p : ℕ) (level : LivingLevel) (picking : Picking)
        → IsNextKept facts c p → AreNumbered facts → KeepsToRules (program_in facts) c p → IsActing facts m c p level
        → HasArrived facts m c p level (next_of (program_in facts) c p) → Represents facts (at_rest m) c
        → (acts : ActsAsItsSource facts (at_rest m) c p picking) × (acts.may.before ≡ m) }
{}

/// Where the action to which it comes may want memory, the machine represents the same configuration before that action.
pub fn refused_memory_leaves_the_configuration()
    ensures { (facts : Facts) (m : Machine) (c : Config) (p : ℕ) → Represents facts m c → IsAboutToAct facts m c p → ComesAndStays facts m c p }
{}

/// Behind the action of such a process the machine agrees with the configuration behind its step in the source text, both have printed the same, and it
/// ends in a fault exactly where the step does, in the same one and on its line. Where memory was refused the machine represents the same configuration
/// still, so that whoever is ready may act next, and nothing is printed.
pub fn actions_agree_with_their_steps()
    ensures { (facts : Facts) (m : Machine) (c : Config) (p : ℕ) (picking picking' : Picking) (acts : ActsAsItsSource facts m c p picking)
        (out out' : List ℕ) (result : Result ActionEnd Memory) (new : Machine)
        → IsActed (image_of facts.tree) p acts.may.before acts.may.instr picking picking' out out' result new
        → HasAgreed facts c p (choice_among picking (choices_for acts.may.instr p acts.may.before)) result out out' new }
{}

/// Where the code of a process that acts has arrived at an instruction that may want memory, the action that comes next in its source text may want it: it is
/// a call of a sub, a requeue, a creation or an output piece, also one whose width is out of bounds.
pub fn memory_is_wanting_only_of_calls_and_output()
    ensures { (facts : Facts) (m : Machine) (c : Config) (p : ℕ) (level : LivingLevel) (i : Instr) → IsActing facts m c p level
        → HasArrived facts m c p level (next_of (program_in facts) c p) → next_instr (image_of facts.tree) p m ≡ Some i → may_want_memory i ≡ true
        → MayWantMemory (next_of (program_in facts) c p) }
{}
