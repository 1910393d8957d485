//! Input and draws.
ghost use Rattle.std.specs.Prelude.{◌≡◌, ◌≤◌, ◌<◌, length, Ok};
ghost use Rattle.pfc_stacks.specs.Conditions.{AreLive};
ghost use Rattle.pfc_stacks.specs.Refs.{ref_of};
ghost use Rattle.pfc_stacks.specs.Stacks.{stack_of, operand, operands_of};
ghost use Rattle.pfc_machines.specs.Actions.{Acts, IsActed};
ghost use Rattle.pfc_own_actions.specs.Doing.{reads, skips, asks_end, asks_line_end, draws};

use pfc_base::RunFault;
use pfc_machines::{Machine, leave, leave_instead, leave_more, leave_written};
use pfc_values::{Simple, truth};
use pfc_world::Running;

/// `RDI` and `RDC`: reads an item for a variable of a type into the address on top. The faults are those of the item.
pub fn read(machine: &mut Machine, r: Running, t: Simple) -> Result<(), RunFault>
    requires acts { Acts r.number machine.old }
    requires some { 1 ≤ length (operands_of machine.old.stacks r.number) }
    requires live { AreLive machine.old.stacks (ref_of (operand (operands_of machine.old.stacks r.number) 0)) 1 }
    ensures { IsActed (reads t r.number machine.old) machine.old result machine.new }
{
    let p = r.number();
    machine.world.rest(r);
    let value = machine.input.item(t)?;
    leave_written(&mut machine.stacks, p, i64::from(value));
    Ok(())
}

/// `RDNL`: passes the rest of the line. The fault is that the input has ended.
pub fn skip(machine: &mut Machine, r: Running) -> Result<(), RunFault>
    requires { Acts r.number machine.old }
    ensures { IsActed (skips r.number machine.old) machine.old result machine.new }
{
    let p = r.number();
    machine.world.rest(r);
    machine.input.skip_line()?;
    leave(&mut machine.stacks, p, 0);
    Ok(())
}

/// `EOF`: pushes whether nothing is left of the input.
pub fn ask_end(machine: &mut Machine, r: Running)
    requires acts { Acts r.number machine.old }
    requires room { length (operands_of machine.old.stacks r.number) < (stack_of machine.old.stacks r.number).room }
    ensures { asks_end r.number machine.old ≡ Ok machine.new }
{
    let p = r.number();
    machine.world.rest(r);
    let answer = truth(machine.input.is_at_end());
    leave_more(&mut machine.stacks, p, answer);
}

/// `EOLN`: pushes whether the input is at the end of a line.
pub fn ask_line_end(machine: &mut Machine, r: Running)
    requires acts { Acts r.number machine.old }
    requires room { length (operands_of machine.old.stacks r.number) < (stack_of machine.old.stacks r.number).room }
    ensures { asks_line_end r.number machine.old ≡ Ok machine.new }
{
    let p = r.number();
    machine.world.rest(r);
    let answer = truth(machine.input.is_at_line_end());
    leave_more(&mut machine.stacks, p, answer);
}

/// `RAND`: puts a drawn number in the place of the greatest that may come. The fault is that of a negative argument.
pub fn draw(machine: &mut Machine, r: Running) -> Result<(), RunFault>
    requires acts { Acts r.number machine.old }
    requires some { 1 ≤ length (operands_of machine.old.stacks r.number) }
    ensures { IsActed (draws r.number machine.old) machine.old result machine.new }
{
    let p = r.number();
    machine.world.rest(r);
    let drawn = machine.draws.draw(machine.stacks.top(p, 0))?;
    leave_instead(&mut machine.stacks, p, drawn);
    Ok(())
}
