//! What a performed instruction, and what a call answers.
use pfc_base::{Memory, RunFault};
use pfc_code::Instr;
use pfc_state::Running;
use std::alloc::AllocError;

/// What became of an instruction. The process that performed it is given back.
pub enum Instructed {
    /// it was performed, and is no action
    Quiet(Running),
    /// it was performed, as an action
    Acted(Running),
    /// it ended in a fault, which is an action, and is left undone
    Fault { r: Running, fault: RunFault },
    /// it is not of the stacks alone: it is left undone
    Outward { r: Running, instr: Instr },
    /// it is a call for which memory was wanting, and is left undone
    Memory(Running),
}

/// What was done for an instruction.
#[derive(Clone, Copy, Debug, PartialEq, Eq)]
pub enum Performed {
    /// it was performed, and is no action
    Passed,
    /// it was performed, as an action
    Action,
    /// it ends in a fault, and is left undone
    Faulted(RunFault),
    /// it is left undone, for others to do
    Nothing,
}

/// Why an activation was not made. All is as it was.
#[derive(Clone, Copy, Debug, PartialEq, Eq)]
pub enum CallFault {
    /// the cells of the process would exceed its limit
    Stack,
    /// memory was wanting
    Memory,
}

impl From<Memory> for CallFault {
    ghost use Rattle.std.specs.Prelude.{◌≡◌};
    ghost use Rattle.pfc_stacks.specs.declared.instructed.CallFault.TheVariants as fault;

    ghost from_gives = { λ _ f. f ≡ fault.Memory };

    fn from(_wanting: Memory) -> CallFault {
        CallFault::Memory
    }
}

impl From<AllocError> for CallFault {
    ghost use Rattle.std.specs.Prelude.{◌≡◌};
    ghost use Rattle.pfc_stacks.specs.declared.instructed.CallFault.TheVariants as fault;

    ghost from_gives = { λ _ f. f ≡ fault.Memory };

    fn from(_error: AllocError) -> CallFault {
        CallFault::Memory
    }
}
