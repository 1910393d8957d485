//! Laws of actions. Each function does nothing; its contract is the law.
ghost use Rattle.std.specs.Prelude.{ℕ};
ghost use Rattle.pfc_code.specs.declared.instructions.Instr.{Instr};
ghost use Rattle.pfc_code.specs.Images.{PlainImage};
ghost use Rattle.pfc_machines.specs.declared.machine.Machine.{Machine};
ghost use Rattle.pfc_machine_acts.specs.Acting.{KeepsClock};
ghost use Rattle.pfc_machine_acts.specs.Performing.{acts_by};

/// No action moves the clock or counts itself: it is counted once, by what performs actions.
pub fn actions_are_counted_once()
    ensures { (image : PlainImage) (i : Instr) (choice p : ℕ) (m : Machine) → KeepsClock m.world (acts_by image i choice p m) }
{}
