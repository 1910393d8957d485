//! The laws. The functions do nothing: their contracts are the laws.
ghost use Rattle.std.specs.Prelude.{◌≡◌, ℕ, List};
ghost use Rattle.pfc_semantics.specs.Configurations.{of_monitor, Config, activity_of};
ghost use Rattle.pfc_semantics.specs.Remainders.{Context, Remainder, Argument, Action, calls, to_module, to_requeue};
ghost use Rattle.pfc_machines.specs.declared.machine.Machine.{Machine};
ghost use Rattle.pfc_representation.specs.Levels.{Facts, program_in, LivingLevel};
ghost use Rattle.pfc_representation.specs.Trials.{mark_of};
ghost use Rattle.pfc_representation.specs.Acting.{IsActing, HasArrived};
ghost use Rattle.pfc_representation.specs.Actions.{IsKept, AreKept};
ghost use Rattle.pfc_kept_modules.specs.Groups.{MayEnter, EntersModule, IsModuleEntry};
ghost use Rattle.pfc_kept_modules.specs.Endings.{EndsInMonitor, AreOutside, IsInOnce};
ghost use Rattle.pfc_kept_modules.specs.Requeued.{AsksRequeue, MayRequeue, Requeues};

/// A call of a procedure of a monitor or of a resource from outside begins the same activation on both sides, and the process has the module or waits for it
/// on both, also where it holds it itself; or both find the stack full.
pub fn entries_are_kept()
    ensures { AreKept EntersModule }
{}

/// The end of a procedure that was called from outside its monitor leads back to the same statement, and the monitor passes to the same resumer or entrant, or
/// to nobody.
pub fn monitors_are_left()
    ensures { (facts : Facts) (m : Machine) (c : Config) (p choice n : ℕ) (level : LivingLevel) (action : Action)
        → EndsInMonitor level action → mark_of (activity_of (program_in facts) c p).activations ≡ of_monitor n
        → AreOutside n (activity_of (program_in facts) c p).activations → IsActing facts m c p level → HasArrived facts m c p level action
        → IsKept facts m c p choice action }
{}

/// The end of a procedure, wherever it was called from.
pub fn procedures_are_left()
    ensures { (facts : Facts) (m : Machine) (c : Config) (p choice : ℕ) (level : LivingLevel) (action : Action) → EndsInMonitor level action
        → IsInOnce (mark_of (activity_of (program_in facts) c p).activations) (activity_of (program_in facts) c p).activations
        → IsActing facts m c p level → HasArrived facts m c p level action → IsKept facts m c p choice action }
{}

/// A requeue begins the same activation on both sides in place of the last, with the same caller, and the same scan comes first; or both find the stack full.
pub fn requeues_are_kept()
    ensures { (facts : Facts) (m : Machine) (c : Config) (p choice : ℕ) (level : LivingLevel) (n : Action) → Requeues level n
        → IsActing facts m c p level → HasArrived facts m c p level n → IsKept facts m c p choice n }
{}

/// Wherever the code of a checked program calls a procedure from outside its module, that can be called: the module exports it, and no part of its variables
/// is an object.
pub fn checked_programs_may_enter()
    ensures { (facts : Facts) (m : Machine) (c : Config) (p : ℕ) (level : LivingLevel) (x : Context) (n scope : ℕ) (k : Remainder) (given : List Argument)
        → IsActing facts m c p level → HasArrived facts m c p level (calls x (to_module n scope k) given) → MayEnter level n scope }
{}

/// So all calls from outside modules are kept.
pub fn module_entries_are_kept()
    ensures { AreKept IsModuleEntry }
{}

/// Wherever the code of a checked program requeues, it stands in the body of a guarded procedure, in which no accept stands, and names another of the same
/// resource, which can be called.
pub fn checked_programs_may_requeue()
    ensures { (facts : Facts) (m : Machine) (c : Config) (p : ℕ) (level : LivingLevel) (x : Context) (scope : ℕ) (given : List Argument)
        → IsActing facts m c p level → HasArrived facts m c p level (calls x (to_requeue scope) given) → MayRequeue level scope }
{}

/// So every requeue is kept.
pub fn every_requeue_is_kept()
    ensures { (facts : Facts) (m : Machine) (c : Config) (p choice : ℕ) (level : LivingLevel) (n : Action) → AsksRequeue n
        → IsActing facts m c p level → HasArrived facts m c p level n → IsKept facts m c p choice n }
{}
