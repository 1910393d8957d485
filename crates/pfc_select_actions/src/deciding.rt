//! `SEL`.
ghost use Rattle.std.specs.Prelude.{◌≡◌, ◌≤◌, ◌<◌, ◌+◌, ◌^◌, Ok, length};
ghost use Rattle.pfc_world.specs.Tickets.{IsNew};
ghost use Rattle.pfc_machines.specs.Actions.{Acts, IsActed};
ghost use Rattle.pfc_machines.specs.Descriptors.{descriptor_of};
ghost use Rattle.pfc_select_actions.specs.Conditions.{CanDecide, CanTakeAt};
ghost use Rattle.pfc_select_actions.specs.Selects.{open_count, open_arms, matched_places, choices, takes_matched, decides};

use crate::partners::communicate;
use crate::waiting::go_otherwise;
use pfc_base::RunFault;
use pfc_machines::Machine;
use pfc_meet::{Committed, matches, select_commit};
use pfc_world::Running;

/// How many alternatives the activation of a process has made since its last select.
fn open_count(machine: &Machine, p: u32) -> u32
    requires process { p < length machine.now.descriptors }
    requires few { open_count machine.now p < 2 ^ 32 }
    ensures open { result ≡ open_count machine.now p }
    ensures made { result ≤ length (descriptor_of machine.now.descriptors p).communications.alternatives }
{
    let activation = machine.descriptors.activations(p);
    machine.descriptors.communications(p).made_by(activation) as u32
}

/// How many of them are matched.
fn matched_count(machine: &Machine, p: u32, n: u32) -> u32
    requires process { p < length machine.now.descriptors }
    requires open { n ≡ open_count machine.now p }
    requires made { n ≤ length (descriptor_of machine.now.descriptors p).communications.alternatives }
    requires arms { length (open_arms machine.now p) < 2 ^ 32 }
    ensures { result ≡ length (matched_places machine.now p) }
{
    matches(
        &machine.world,
        p,
        machine.descriptors.communications(p).arms(n),
    )
}

/// How many alternatives the choice of a select is among: none but where the mark is 0 and some are matched.
pub fn choices(machine: &Machine, p: u32, mark: u32) -> u32
    requires process { p < length machine.now.descriptors }
    requires few { open_count machine.now p < 2 ^ 32 }
    requires arms { length (open_arms machine.now p) < 2 ^ 32 }
    ensures { result ≡ choices mark p machine.now }
{
    if mark != 0 {
        return 0;
    }
    matched_count(machine, p, open_count(machine, p))
}

/// The matched alternative at place k, from 0, is taken with its first partner; both go on.
fn take_matched(machine: &mut Machine, r: Running, n: u32, k: u32)
    requires can { CanTakeAt k r.number machine.old }
    requires open { n ≡ open_count machine.old r.number }
    requires made { n ≤ length (descriptor_of machine.old.descriptors r.number).communications.alternatives }
    ensures { machine.new ≡ takes_matched k r.number machine.old }
{
    let p = r.number();
    let arms = machine.descriptors.communications(p).arms(n);
    let Committed {
        r,
        alternative,
        partner,
        partner_alternative: _,
    } = select_commit(&mut machine.world, r, arms, k);
    machine.world.rest(r);
    if let Some(own) = machine
        .descriptors
        .communications(p)
        .communication(n, alternative)
    {
        communicate(machine, own, n, p, partner);
    }
}

/// `SEL mark x`: the select of the alternatives that the activation has made since its last one decides. A `pri select` has the mark 1 and takes
/// the first matched alternative, a plain one has the mark 0 and takes the matched one at the place of the choice, from 0. Without a matched
/// one the else part at address x is taken, where x is not 0; else a `timeout 0`; else the process waits. The faults are that nothing is open,
/// and the moment of a `timeout` too late.
pub fn decide(
    machine: &mut Machine,
    r: Running,
    mark: u32,
    x: u32,
    choice: u32,
) -> Result<(), RunFault>
    requires { CanDecide mark choice r.number machine.old }
    ensures { IsActed (decides mark x choice r.number machine.old) machine.old result machine.new }
{
    let p = r.number();
    let n = open_count(machine, p);
    if matched_count(machine, p, n) == 0 {
        return go_otherwise(machine, r, n, x);
    }
    let k = if mark == 0 { choice } else { 0 };
    take_matched(machine, r, n, k);
    Ok(())
}
