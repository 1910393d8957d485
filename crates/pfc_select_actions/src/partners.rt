//! What a select does with the partner of a matched alternative.
ghost use Rattle.std.specs.Prelude.{◌≡◌, ◌≤◌, ◌<◌, Option, IfSome, length};
ghost use Rattle.pfc_stacks.specs.Refs.{ref_of};
ghost use Rattle.pfc_machines.specs.Descriptors.{descriptor_of};
ghost use Rattle.pfc_message_actions.specs.Messages.{target_of, CanHandOver};
ghost use Rattle.pfc_select_actions.specs.Conditions.{CanCommunicate};
ghost use Rattle.pfc_select_actions.specs.Selects.{decided, sent_from, received_by, communicates_by};

use pfc_machines::{KeptAlternative, Machine, Offer};
use pfc_meeting_actions::begin_meeting;
use pfc_message_actions::target_of;
use pfc_stacks::Ref;
use pfc_world::Arm;

/// A process goes on at a branch, and its last n alternatives are gone.
pub(crate) fn go_on(machine: &mut Machine, p: u32, n: u32, branch: u32)
    requires { p < length machine.old.descriptors }
    ensures { machine.new ≡ decided machine.old p n branch }
{
    machine.stacks.go(p, branch);
    machine.descriptors.forget(p, n);
}

/// The message of an alternative of process p goes to a receiver, where that one offers to receive it.
fn send_from(
    machine: &mut Machine,
    k: Option<KeptAlternative>,
    own: KeptAlternative,
    n: u32,
    p: u32,
    q: u32,
)
    requires process { p < length machine.old.descriptors }
    requires receiver { q < length machine.old.descriptors }
    requires message { IfSome k (λ k. CanHandOver machine.old p (ref_of (target_of k.alternative.offer)) own) }
    ensures { machine.new ≡ sent_from k own n p q machine.old }
{
    match k {
        Some(k) => {
            let to = Ref::of(target_of(k.alternative.offer));
            machine
                .descriptors
                .communications(p)
                .write_message(own, &mut machine.stacks, to);
            go_on(machine, p, n, own.alternative.branch);
            machine.go_behind(q, k.alternative.branch);
        }
        None => go_on(machine, p, n, own.alternative.branch),
    }
}

/// The message of a sender goes to the address of an alternative of process p, where that one offers to send it.
fn receive_by(
    machine: &mut Machine,
    k: Option<KeptAlternative>,
    to: i64,
    own: KeptAlternative,
    n: u32,
    p: u32,
    q: u32,
)
    requires process { p < length machine.old.descriptors }
    requires sender { q < length machine.old.descriptors }
    requires message { IfSome k (CanHandOver machine.old q (ref_of to)) }
    ensures { machine.new ≡ received_by k to own n p q machine.old }
{
    match k {
        Some(k) => {
            machine
                .descriptors
                .communications(q)
                .write_message(k, &mut machine.stacks, Ref::of(to));
            go_on(machine, p, n, own.alternative.branch);
            machine.go_behind(q, k.alternative.branch);
        }
        None => go_on(machine, p, n, own.alternative.branch),
    }
}

/// An alternative of process p is taken with a partner: a message passes, or a meeting begins.
pub(crate) fn communicate(machine: &mut Machine, own: KeptAlternative, n: u32, p: u32, q: u32)
    requires process { p < length machine.old.descriptors }
    requires partner { CanCommunicate own.alternative.offer own p q machine.old }
    ensures { machine.new ≡ communicates_by own.alternative.offer own n p q machine.old }
{
    match own.alternative.offer {
        Offer::Send { channel, size: _ } => {
            let k = machine.open_to(q, Arm::Receive(channel));
            send_from(machine, k, own, n, p, q);
        }
        Offer::Receive {
            channel,
            size: _,
            to,
        } => {
            let k = machine.open_to(q, Arm::Send(channel));
            receive_by(machine, k, to, own, n, p, q);
        }
        Offer::Accept {
            entry: _,
            cell,
            size,
        } => {
            begin_meeting(machine, p, cell, size, q);
            go_on(machine, p, n, own.alternative.branch);
        }
        _ => {}
    }
}
