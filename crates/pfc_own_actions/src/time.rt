//! The clock, and the wait for a moment.
ghost use Rattle.std.specs.Prelude.{◌≡◌, ◌≤◌, ◌<◌, ◌*◌, ◌/◌, ◌^◌, pos, length};
ghost use Rattle.pfc_stacks.specs.Stacks.{stack_of, operand, operands_of};
ghost use Rattle.pfc_values.specs.Numbers.{fitting};
ghost use Rattle.pfc_world.specs.Tickets.{IsNew};
ghost use Rattle.pfc_machines.specs.Actions.{Acts, IsActed};
ghost use Rattle.pfc_own_actions.specs.Doing.{clocks, due_after, due_behind, sleeps};

use pfc_base::RunFault;
use pfc_machines::{Machine, leave, leave_more};
use pfc_world::{Running, Why};

/// The last due moment.
const LATEST: u64 = 1_000_000_000_000_000;

/// The clock in whole seconds, which is an overflow where it does not fit in 32 bits.
fn seconds(moment: u64) -> Result<i64, RunFault>
    ensures { result ≡ fitting (pos (moment / 1000)) }
{
    let seconds = moment / 1000;
    if seconds <= 2_147_483_647 {
        Ok(seconds as i64)
    } else {
        Err(RunFault::Overflow)
    }
}

/// `CLOCK`: pushes the whole seconds since the start. The fault is that they do not fit in 32 bits.
pub fn ask_clock(machine: &mut Machine, r: Running) -> Result<(), RunFault>
    requires acts { Acts r.number machine.old }
    requires room { length (operands_of machine.old.stacks r.number) < (stack_of machine.old.stacks r.number).room }
    ensures { IsActed (clocks r.number machine.old) machine.old result machine.new }
{
    let p = r.number();
    machine.world.rest(r);
    let seconds = seconds(machine.world.now())?;
    leave_more(&mut machine.stacks, p, seconds);
    Ok(())
}

/// The moment so many seconds behind this one; None where there is no wait. The fault is that of a moment too late.
pub fn moment_after(moment: u64, seconds: u64) -> Result<Option<u64>, RunFault>
    requires { moment < 2 * 10 ^ 18 }
    ensures { result ≡ due_after moment seconds }
{
    if seconds == 0 {
        return Ok(None);
    }
    if seconds > LATEST {
        return Err(RunFault::Late);
    }
    let due = moment + 1000 * seconds;
    if due <= LATEST {
        Ok(Some(due))
    } else {
        Err(RunFault::Late)
    }
}

/// The same of a number that was given, of which one below 0 is a fault.
fn moment_behind(moment: u64, seconds: i64) -> Result<Option<u64>, RunFault>
    requires { moment < 2 * 10 ^ 18 }
    ensures { result ≡ due_behind moment seconds }
{
    if seconds < 0 {
        return Err(RunFault::Below);
    }
    moment_after(moment, seconds.unsigned_abs())
}

/// `SLEEP`: the process waits until the clock has gone on by the number of seconds on top, and not at all for 0. The faults are those of a
/// number below 0 and of a moment too late.
pub fn sleep(machine: &mut Machine, r: Running) -> Result<(), RunFault>
    requires acts { Acts r.number machine.old }
    requires fresh { IsNew machine.old.world.rows machine.old.world.done }
    requires moment { machine.old.world.moment < 2 * 10 ^ 18 }
    ensures { IsActed (sleeps r.number machine.old) machine.old result machine.new }
{
    let p = r.number();
    match moment_behind(machine.world.now(), machine.stacks.top(p, 0)) {
        Ok(due) => {
            leave(&mut machine.stacks, p, 1);
            match due {
                Some(moment) => machine.world.block(r, Why::Sleep(moment)),
                None => machine.world.rest(r),
            }
            Ok(())
        }
        Err(fault) => {
            machine.world.rest(r);
            Err(fault)
        }
    }
}
