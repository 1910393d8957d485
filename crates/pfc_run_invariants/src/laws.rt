//! The law. The function does nothing: its contract is the law.
ghost use Rattle.std.specs.Prelude.{ℤ};
ghost use Rattle.rand_pcg.specs.Lcg.{Lcg};
ghost use Rattle.pfc_tree.specs.declared.tree.AddOp.{AddOp};
ghost use Rattle.pfc_tree.specs.declared.tree.MulOp.{MulOp};
ghost use Rattle.pfc_sched.specs.Draws.{drawn};
ghost use Rattle.pfc_values.specs.declared.simple.Simple.{Simple};
ghost use Rattle.pfc_semantics.specs.Operators.{added, multiplied, applied};
ghost use Rattle.pfc_semantics.specs.Predeclared.{Function};
ghost use Rattle.pfc_run_invariants.specs.Fitting.{Fits, FitsOutcome};

/// What operators and functions give of numbers of 32 bits, and what `random` draws, has 32 bits, or is a fault.
pub fn operators_give_small_numbers()
    ensures added { (op : AddOp) (a b : ℤ) → FitsOutcome (added op a b) }
    ensures multiplied { (op : MulOp) (a b : ℤ) → Fits b → FitsOutcome (multiplied op a b) }
    ensures applied { (f : Function) (t : Simple) (n : ℤ) → Fits n → FitsOutcome (applied f t n) }
    ensures drawn { (words : Lcg) (n : ℤ) → Fits n → FitsOutcome (drawn words n) }
{}
