//! `SEND` and `RECV`.
ghost use Rattle.std.specs.Prelude.{◌≡◌, ◌≤◌, ◌<◌, ◌+◌, ◌^◌, ℕ, Ok, Some, None, Option, length, IfSome};
ghost use Rattle.pfc_code.specs.declared.instructions.Instr.{Instr};
ghost use Rattle.pfc_stacks.specs.Conditions.{AreLive};
ghost use Rattle.pfc_stacks.specs.Refs.{ref_of};
ghost use Rattle.pfc_stacks.specs.Stacks.{stack_of, operands_of};
ghost use Rattle.pfc_state.specs.declared.waits.Arm.{Arm};
ghost use Rattle.pfc_world.specs.Partners.{receiver, sender};
ghost use Rattle.pfc_world.specs.Tickets.{IsNew};
ghost use Rattle.pfc_machines.specs.declared.alternatives.KeptAlternative.{KeptAlternative};
ghost use Rattle.pfc_machines.specs.declared.machine.Machine.{Machine};
ghost use Rattle.pfc_machines.specs.Actions.{Acts};
ghost use Rattle.pfc_machines.specs.Descriptors.{descriptor_of};
ghost use Rattle.pfc_machines.specs.Partners.{open_to};
ghost use Rattle.pfc_machines.specs.Quiet.{CanGo};
ghost use Rattle.pfc_message_actions.specs.Messages.{channel_under, channel_for, target_for, target_of, sent_out, sent_into, sent_to, sends, handed_over};
ghost use Rattle.pfc_message_actions.specs.Messages.{received_out, receives, CanTake, CanGive, CanHandOver};

use pfc_machines::{KeptAlternative, Machine, Offer, leave, number_in};
use pfc_pass::Passed;
use pfc_stacks::{Ref, Stacks};
use pfc_world::{Arm, Running};

/// Where an alternative has what it receives written, as a word; 0 where it receives nothing.
pub fn target_of(offer: Offer) -> i64
    ensures { result ≡ target_of offer }
{
    match offer {
        Offer::Receive { to, .. } => to,
        _ => 0,
    }
}

/// The z words on top of the operands of a process go to an address, and are popped with the number below them; the process goes on.
fn send_out(stacks: &mut Stacks, p: u32, z: u32, to: Ref)
    requires process { p < length stacks.old }
    requires held { z ≤ length (operands_of stacks.old p) }
    requires live { AreLive stacks.old to z }
    requires next { (stack_of stacks.old p).at + 1 < 2 ^ 32 }
    ensures { stacks.new ≡ sent_out stacks.old p z to }
{
    stacks.copy_out(p, 0, z, to);
    stacks.cut(p, z);
    leave(stacks, p, 1);
}

/// The message of process p goes to a receiver, where that one offers to receive it, and both go on.
fn send_into(machine: &mut Machine, k: Option<KeptAlternative>, z: u32, p: u32, q: u32)
    requires process { p < length machine.old.stacks }
    requires held { z ≤ length (operands_of machine.old.stacks p) }
    requires next { (stack_of machine.old.stacks p).at + 1 < 2 ^ 32 }
    requires receiver { q < length machine.old.descriptors }
    requires live { IfSome k (λ k. AreLive machine.old.stacks (ref_of (target_of k.alternative.offer)) z) }
    ensures { machine.new ≡ sent_into k z p q machine.old }
{
    match k {
        Some(k) => {
            let to = Ref::of(target_of(k.alternative.offer));
            send_out(&mut machine.stacks, p, z, to);
            machine.go_behind(q, k.alternative.branch);
        }
        None => {
            machine.stacks.cut(p, z);
            leave(&mut machine.stacks, p, 1);
        }
    }
}

/// The number of the channel that lies under a message of z words.
fn channel_under(stacks: &Stacks, p: u32, z: u32) -> u32
    ensures { (m : Machine) → m.stacks ≡ stacks.now → result ≡ channel_under z p m }
{
    number_in(stacks.top(p, z))
}

/// `SEND z`: the z words on top, over the number of a channel, go to the process that has waited longest to receive from it; both go on. Without
/// one the process waits, and offers them.
pub fn send(machine: &mut Machine, r: Running, z: u32)
    requires acts { Acts r.number machine.old }
    requires room { CanGo (Instr.SEND z) r.number machine.old }
    requires fresh { IsNew machine.old.world.rows machine.old.world.done }
    requires receiver { (q : ℕ) → receiver machine.old.world.rows (channel_under z r.number machine.old) ≡ Some q
        → CanTake machine.old q (Arm.Receive (channel_under z r.number machine.old)) z }
    ensures { sends z r.number machine.old ≡ Ok machine.new }
{
    let p = r.number();
    let c = channel_under(&machine.stacks, p, z);
    match pfc_pass::send(&mut machine.world, r, c) {
        Passed::Met {
            r,
            partner,
            alternative: _,
        } => {
            machine.world.rest(r);
            let k = machine.open_to(partner, Arm::Receive(c));
            send_into(machine, k, z, p, partner);
        }
        Passed::Waits => {
            let next = machine.stacks.at(p) + 1;
            machine.make_sending(p, z, next);
            machine.descriptors.offer(p, 1);
        }
    }
}

/// The number of the channel of a process that receives z words.
fn channel_for(stacks: &Stacks, p: u32, z: u32) -> u32
    ensures { (m : Machine) → m.stacks ≡ stacks.now → result ≡ channel_for z p m }
{
    if z == 0 {
        number_in(stacks.top(p, 0))
    } else {
        number_in(stacks.top(p, 1))
    }
}

/// The message of a sender goes to process p, which receives z words, where that one offers to send it, and both go on.
fn receive_out(machine: &mut Machine, k: Option<KeptAlternative>, z: u32, p: u32, q: u32)
    requires process { p < length machine.old.stacks }
    requires next { (stack_of machine.old.stacks p).at + 1 < 2 ^ 32 }
    requires sender { q < length machine.old.descriptors }
    requires message { IfSome k (CanHandOver machine.old q (ref_of (target_for z p machine.old))) }
    ensures { machine.new ≡ received_out k z p q machine.old }
{
    let to = if z == 0 { 0 } else { machine.stacks.top(p, 0) };
    leave(&mut machine.stacks, p, if z == 0 { 1 } else { 2 });
    if let Some(k) = k {
        machine
            .descriptors
            .communications(q)
            .write_message(k, &mut machine.stacks, Ref::of(to));
        machine.go_behind(q, k.alternative.branch);
    }
}

/// `RECV z`: z words go to the address on top, over the number of a channel, from the process that has waited longest to send to it; both go
/// on. Where z is 0 there is no address. Without a sender the process waits, and offers to receive.
pub fn receive(machine: &mut Machine, r: Running, z: u32)
    requires acts { Acts r.number machine.old }
    requires room { CanGo (Instr.RECV z) r.number machine.old }
    requires fresh { IsNew machine.old.world.rows machine.old.world.done }
    requires sender { (q : ℕ) → sender machine.old.world.rows (channel_for z r.number machine.old) ≡ Some q
        → CanGive machine.old q (Arm.Send (channel_for z r.number machine.old)) (ref_of (target_for z r.number machine.old)) }
    ensures { receives z r.number machine.old ≡ Ok machine.new }
{
    let p = r.number();
    let c = channel_for(&machine.stacks, p, z);
    match pfc_pass::receive(&mut machine.world, r, c) {
        Passed::Met {
            r,
            partner,
            alternative: _,
        } => {
            machine.world.rest(r);
            let k = machine.open_to(partner, Arm::Send(c));
            receive_out(machine, k, z, p, partner);
        }
        Passed::Waits => {
            let next = machine.stacks.at(p) + 1;
            machine.make_receiving(p, z, next);
            machine.descriptors.offer(p, 1);
        }
    }
}
