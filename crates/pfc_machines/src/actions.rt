//! What an action of a process answers.
use pfc_base::{Memory, RunFault};
use pfc_stacks::CallFault;
use pfc_values::PieceFault;

/// Why an action was not performed. The machine is as it was, and the process that acted is ready.
#[derive(Clone, Copy, Debug, PartialEq, Eq)]
pub enum ActionFault {
    /// its fault, which ends the run
    Fault(RunFault),
    /// memory was wanting
    Memory,
}

impl From<RunFault> for ActionFault {
    ghost use Rattle.std.specs.Prelude.{◌≡◌};
    ghost use Rattle.pfc_machines.specs.declared.actions.ActionFault.TheVariants as fault;

    ghost from_gives = { λ run f. f ≡ fault.Fault run };

    fn from(fault: RunFault) -> ActionFault {
        ActionFault::Fault(fault)
    }
}

impl From<Memory> for ActionFault {
    ghost use Rattle.std.specs.Prelude.{◌≡◌};
    ghost use Rattle.pfc_machines.specs.declared.actions.ActionFault.TheVariants as fault;

    ghost from_gives = { λ _ f. f ≡ fault.Memory };

    fn from(_wanting: Memory) -> ActionFault {
        ActionFault::Memory
    }
}

impl From<PieceFault> for ActionFault {
    ghost use Rattle.std.specs.Prelude.{◌≡◌};
    ghost use Rattle.pfc_machines.specs.Actions.{of_piece};

    ghost from_gives = { λ piece f. f ≡ of_piece piece };

    fn from(fault: PieceFault) -> ActionFault {
        match fault {
            PieceFault::Fault(run) => ActionFault::Fault(run),
            PieceFault::Memory => ActionFault::Memory,
        }
    }
}

impl From<CallFault> for ActionFault {
    ghost use Rattle.std.specs.Prelude.{◌≡◌};
    ghost use Rattle.pfc_machines.specs.Actions.{of_call};

    ghost from_gives = { λ call f. f ≡ of_call call };

    fn from(fault: CallFault) -> ActionFault {
        match fault {
            CallFault::Stack => ActionFault::Fault(RunFault::Stack),
            CallFault::Memory => ActionFault::Memory,
        }
    }
}
