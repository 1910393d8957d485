//! Conditions of monitors.
ghost use Rattle.std.specs.Prelude.{◌≡◌, ◌≤◌, ◌<◌, true, false, Ok, Some, length};
ghost use Rattle.pfc_stacks.specs.Stacks.{operand, operands_of};
ghost use Rattle.pfc_values.specs.declared.simple.Simple.{Simple};
ghost use Rattle.pfc_values.specs.Numbers.{is_of};
ghost use Rattle.pfc_world.specs.Holders.{holder_in};
ghost use Rattle.pfc_world.specs.Partners.{is_empty_condition};
ghost use Rattle.pfc_world.specs.Tickets.{IsNew};
ghost use Rattle.pfc_machines.specs.Actions.{Acts};
ghost use Rattle.pfc_object_actions.specs.Objects.{object_at};
ghost use Rattle.pfc_object_actions.specs.Conditions.{monitor_of, is_inside, delays, resumes, asks_empty};

use crate::operands::{object_at, top_integer};
use crate::turns::end_turn;
use pfc_machines::{Machine, leave, leave_instead};
use pfc_monitor::is_empty;
use pfc_values::truth;
use pfc_world::{Running, Why};

/// `DELAY`: hands over the monitor of the condition below the top, and waits on the condition with the rank on top. In the monitor's own
/// initialising body the process only waits.
pub fn delay(machine: &mut Machine, r: Running)
    requires acts { Acts r.number machine.old }
    requires fresh { IsNew machine.old.world.rows machine.old.world.done }
    requires integer { is_of Simple.Integer (operand (operands_of machine.old.stacks r.number) 0) ≡ true }
    requires known { object_at 1 r.number machine.old < length machine.old.monitors.owners }
    requires holds { let m = monitor_of machine.old (object_at 1 r.number machine.old) in
        is_inside m r.number machine.old ≡ true → holder_in machine.old.monitors.holders m ≡ Some r.number }
    ensures { delays r.number machine.old ≡ Ok machine.new }
{
    let p = r.number();
    let c = object_at(machine, p, 1);
    let rank = top_integer(machine, p);
    let inside = machine.stacks.marked(p, machine.monitors.monitor_of(c));
    leave(&mut machine.stacks, p, 2);
    if inside {
        pfc_monitor::delay(&mut machine.world, &mut machine.monitors, r, c, rank);
    } else {
        machine.world.block(r, Why::Condition { number: c, rank });
    }
}

/// `RESUME`: without a waiter on the condition on top nothing more happens. Else the waiter of least rank, and at that rank the one that has
/// waited longest, has the monitor and is ready, and the process waits as a resumer.
pub fn resume(machine: &mut Machine, r: Running)
    requires acts { Acts r.number machine.old }
    requires fresh { IsNew machine.old.world.rows machine.old.world.done }
    requires known { object_at 0 r.number machine.old < length machine.old.monitors.owners }
    requires holds { let c = object_at 0 r.number machine.old in
        is_empty_condition machine.old.world.rows c ≡ false → holder_in machine.old.monitors.holders (monitor_of machine.old c) ≡ Some r.number }
    ensures { resumes r.number machine.old ≡ Ok machine.new }
{
    let p = r.number();
    let c = object_at(machine, p, 0);
    leave(&mut machine.stacks, p, 1);
    if is_empty(&machine.world, c) {
        return machine.world.rest(r);
    }
    let after = pfc_monitor::resume(&mut machine.world, &mut machine.monitors, r, c);
    end_turn(&mut machine.world, after);
}

/// `EMPTY`: puts in the place of the condition on top whether nobody waits on it, with any rank.
pub fn ask_empty(machine: &mut Machine, r: Running)
    requires acts { Acts r.number machine.old }
    requires some { 1 ≤ length (operands_of machine.old.stacks r.number) }
    ensures { asks_empty r.number machine.old ≡ Ok machine.new }
{
    let p = r.number();
    machine.world.rest(r);
    let c = object_at(machine, p, 0);
    let answer = truth(is_empty(&machine.world, c));
    leave_instead(&mut machine.stacks, p, answer);
}
