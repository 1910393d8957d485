//! What actions find among the operands.
ghost use Rattle.std.specs.Prelude.{◌≡◌, true};
ghost use Rattle.pfc_stacks.specs.Stacks.{operand, operands_of};
ghost use Rattle.pfc_values.specs.declared.simple.Simple.{Simple};
ghost use Rattle.pfc_values.specs.Numbers.{is_of};
ghost use Rattle.pfc_object_actions.specs.Objects.{object_at};

use pfc_machines::{Machine, number_in};

/// The number of the object at a depth of a process's operands, the top at 0.
pub(crate) fn object_at(machine: &Machine, p: u32, k: u32) -> u32
    ensures { result ≡ object_at k p machine.now }
{
    number_in(machine.stacks.top(p, k))
}

/// The integer on top.
pub(crate) fn top_integer(machine: &Machine, p: u32) -> i32
    requires { is_of Simple.Integer (operand (operands_of machine.now.stacks p) 0) ≡ true }
    ensures { result ≡ operand (operands_of machine.now.stacks p) 0 }
{
    machine.stacks.top(p, 0) as i32
}
