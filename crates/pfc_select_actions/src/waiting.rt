//! What a select does without a matched alternative.
ghost use Rattle.std.specs.Prelude.{◌≡◌, ◌≤◌, ◌<◌, ◌+◌, ◌*◌, ◌^◌, [], Ok, Some, None, Option, Result, length};
ghost use Rattle.pfc_stacks.specs.Stacks.{stack_of};
ghost use Rattle.pfc_world.specs.Tickets.{IsNew};
ghost use Rattle.pfc_own_actions.specs.Doing.{due_after};
ghost use Rattle.pfc_machines.specs.Actions.{Acts, IsActed};
ghost use Rattle.pfc_machines.specs.Descriptors.{descriptor_of};
ghost use Rattle.pfc_machines.specs.Offers.{first_sought};
ghost use Rattle.pfc_machines.specs.declared.alternatives.Sought.{Sought};
ghost use Rattle.pfc_select_actions.specs.Conditions.{CanWait};
ghost use Rattle.pfc_select_actions.specs.Selects.{open_count, open_ones, open_arms, matched_places, waits_at, seconds_of, times_out, waits_or_closed};
ghost use Rattle.pfc_select_actions.specs.Selects.{goes_otherwise, takes_up};

use crate::partners::go_on;
use pfc_base::RunFault;
use pfc_machines::{KeptAlternative, Machine, Offer, Sought};
use pfc_meet::select_wait;
use pfc_own_actions::moment_after;
use pfc_world::Running;

/// The process waits with its n open alternatives, and stands at an address.
fn wait_at(machine: &mut Machine, r: Running, n: u32, due: Option<u64>, at: u32)
    requires can { CanWait r.number machine.old }
    requires open { n ≡ open_count machine.old r.number }
    requires made { n ≤ length (descriptor_of machine.old.descriptors r.number).communications.alternatives }
    ensures { machine.new ≡ waits_at due at r.number machine.old }
{
    let p = r.number();
    let made = machine.descriptors.communications(p);
    let terminate = made.first(n, Sought::End).is_some();
    select_wait(&mut machine.world, r, made.arms(n), due, terminate);
    machine.stacks.go(p, at);
    machine.descriptors.offer(p, n);
}

/// How many seconds a `timeout` waits; 0 of any other alternative.
fn seconds_of(offer: Offer) -> u64
    ensures { result ≡ seconds_of offer }
{
    match offer {
        Offer::Timeout { seconds } => seconds,
        _ => 0,
    }
}

/// A `timeout 0` is taken; else the process waits up to the moment, and stands at the branch of the `timeout`.
fn time_out(machine: &mut Machine, r: Running, n: u32, k: KeptAlternative) -> Result<(), RunFault>
    requires can { CanWait r.number machine.old }
    requires open { n ≡ open_count machine.old r.number }
    requires made { n ≤ length (descriptor_of machine.old.descriptors r.number).communications.alternatives }
    ensures { IsActed (waits_or_closed (Some k) r.number machine.old) machine.old result machine.new }
{
    let branch = k.alternative.branch;
    match moment_after(machine.world.now(), seconds_of(k.alternative.offer)) {
        Ok(Some(due)) => {
            wait_at(machine, r, n, Some(due), branch);
            Ok(())
        }
        Ok(None) => {
            let p = r.number();
            machine.world.rest(r);
            go_on(machine, p, n, branch);
            Ok(())
        }
        Err(fault) => {
            machine.world.rest(r);
            Err(fault)
        }
    }
}

/// Without a `timeout` the process waits, where something is open.
fn wait_or_close(machine: &mut Machine, r: Running, n: u32) -> Result<(), RunFault>
    requires can { CanWait r.number machine.old }
    requires open { n ≡ open_count machine.old r.number }
    requires made { n ≤ length (descriptor_of machine.old.descriptors r.number).communications.alternatives }
    ensures { IsActed (waits_or_closed None r.number machine.old) machine.old result machine.new }
{
    if n == 0 {
        machine.world.rest(r);
        return Err(RunFault::Closed);
    }
    let next = machine.stacks.at(r.number()) + 1;
    wait_at(machine, r, n, None, next);
    Ok(())
}

/// The else part at address x is taken, where that is not 0; else a `timeout 0`; else the process waits.
pub(crate) fn go_otherwise(
    machine: &mut Machine,
    r: Running,
    n: u32,
    x: u32,
) -> Result<(), RunFault>
    requires can { CanWait r.number machine.old }
    requires open { n ≡ open_count machine.old r.number }
    requires made { n ≤ length (descriptor_of machine.old.descriptors r.number).communications.alternatives }
    ensures { IsActed (goes_otherwise x r.number machine.old) machine.old result machine.new }
{
    let p = r.number();
    if x != 0 {
        machine.world.rest(r);
        go_on(machine, p, n, x);
        return Ok(());
    }
    match machine
        .descriptors
        .communications(p)
        .first(n, Sought::Delay)
    {
        Some(k) => time_out(machine, r, n, k),
        None => wait_or_close(machine, r, n),
    }
}

/// A process that waited goes on where it stands, woken by a partner or by its moment: what it offered is gone.
pub fn take_up(machine: &mut Machine, p: u32)
    requires { p < length machine.old.descriptors }
    ensures { machine.new ≡ takes_up p machine.old }
{
    machine.descriptors.withdraw(p);
}
