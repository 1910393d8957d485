//! The laws. The functions do nothing: their contracts are the laws.
ghost use Rattle.std.specs.Prelude.{◌≡◌, ℕ, List, Err};
ghost use Rattle.pfc_base.specs.declared.faults.RunFault.{RunFault};
ghost use Rattle.pfc_semantics.specs.Configurations.{plain, of_resource, Config, activity_of, after};
ghost use Rattle.pfc_code.specs.declared.instructions.Instr.TheVariants.{RETF};
ghost use Rattle.pfc_tree.specs.trees.Parts.{ProgramTree};
ghost use Rattle.pfc_semantics.specs.Programs.{program_of};
ghost use Rattle.pfc_semantics.specs.Remainders.{Context, Remainder, AwaitsValue, Argument, Action, calls, to_procedure, to_function, finishes};
ghost use Rattle.pfc_machines.specs.declared.machine.Machine.{Machine};
ghost use Rattle.pfc_machines.specs.Actions.{at_rest};
ghost use Rattle.pfc_machine_acts.specs.Acting.{acted};
ghost use Rattle.pfc_representation.specs.Levels.{Facts, program_in, LivingLevel, IsProgram};
ghost use Rattle.pfc_representation.specs.Trials.{mark_of};
ghost use Rattle.pfc_representation.specs.Machines.{Agrees};
ghost use Rattle.pfc_representation.specs.Acting.{IsActing, HasArrived};
ghost use Rattle.pfc_representation.specs.Actions.{IsKept, AreKept};
ghost use Rattle.pfc_kept_calls.specs.Groups.{
  MayCall,
  CallsProcedure,
  CallsFunction,
  HasResult,
  EndsProcedure,
  EndsFunction,
  IsProcedureCall,
  IsFunctionCall,
  IsFunctionEnd,
};

/// Where an action ends in a fault on both sides, the run ends on both alike.
pub fn faults_end_alike()
    ensures { (facts : Facts) (m : Machine) (c : Config) (p : ℕ) (level : LivingLevel) (line : ℕ) (f : RunFault)
        → IsActing facts m c p level → Agrees facts (acted line p (at_rest m)) (after (program_in facts) c p line (Err f)) }
{}

/// A call of a procedure or a function from inside its module begins the same activation on both sides, or both find the stack full.
pub fn calls_are_kept()
    ensures procedures { AreKept CallsProcedure }
    ensures functions { AreKept CallsFunction }
{}

/// The end of a procedure that was called from inside its module, and that of a function lead back to the same statement and to the same expression, with
/// the same result. Behind that of a procedure which was called from outside its resource the same scan comes first.
pub fn returns_are_kept()
    ensures procedures { (facts : Facts) (m : Machine) (c : Config) (p choice : ℕ) (level : LivingLevel) (n : Action)
        → EndsProcedure level n → mark_of (activity_of (program_in facts) c p).activations ≡ plain → IsActing facts m c p level
        → HasArrived facts m c p level n → IsKept facts m c p choice n }
    ensures functions { AreKept EndsFunction }
    ensures resources { (facts : Facts) (m : Machine) (c : Config) (p choice r : ℕ) (level : LivingLevel) (n : Action)
        → EndsProcedure level n → mark_of (activity_of (program_in facts) c p).activations ≡ of_resource r → IsActing facts m c p level
        → HasArrived facts m c p level n → IsKept facts m c p choice n }
{}

/// Wherever the code of a checked program calls a procedure or a function, that can be called: it has no guard, its block is nested in the one at hand, and
/// no part of its variables is an object. At the end of a function its result is there.
pub fn checked_programs_may_call()
    ensures procedures { (facts : Facts) (m : Machine) (c : Config) (p : ℕ) (level : LivingLevel) (x : Context) (scope : ℕ) (k : Remainder)
        (given : List Argument) → IsActing facts m c p level → HasArrived facts m c p level (calls x (to_procedure scope k) given) → MayCall level scope }
    ensures functions { (facts : Facts) (m : Machine) (c : Config) (p : ℕ) (level : LivingLevel) (x : Context) (scope : ℕ) (u : AwaitsValue)
        (given : List Argument) → IsActing facts m c p level → HasArrived facts m c p level (calls x (to_function scope u) given) → MayCall level scope }
    ensures results { (facts : Facts) (m : Machine) (c : Config) (p : ℕ) (level : LivingLevel) (line : ℕ)
        → IsActing facts m c p level → HasArrived facts m c p level (finishes line) → level.setting.last ≡ RETF
        → (t : ProgramTree) → level.setting.program ≡ program_of t → IsProgram t → HasResult t level.setting.block }
{}

/// So calls of procedures and functions from inside their modules, and the ends of functions, are kept.
pub fn plain_calls_are_kept()
    ensures procedures { AreKept IsProcedureCall }
    ensures functions { AreKept IsFunctionCall }
    ensures ends { AreKept IsFunctionEnd }
{}
