//! Who is met by an alternative, and by the call of an entry.
ghost use Rattle.std.specs.Prelude.{◌≡◌, ◌<◌, length, None, Some, IfSome};
ghost use Rattle.pfc_state.specs.declared.waits.Arm.{Arm};
ghost use Rattle.pfc_state.specs.Stands.{IsWaiting};
ghost use Rattle.pfc_world.specs.Tables.{at};
ghost use Rattle.pfc_meet.specs.Matches.{acceptance_of, partner_met};

use pfc_world::{Arm, Partner, State, Why, World};

/// The first process that an alternative of process p meets.
pub(crate) fn partner(world: &World, p: u32, arm: Arm) -> Option<Partner>
    ensures partner { result ≡ partner_met world.now.rows p arm }
    ensures waits { IfSome result (λ q. IsWaiting (at world.now.rows q.process)) }
{
    match arm {
        Arm::Send(c) => world.first_open_to(Arm::Receive(c)),
        Arm::Receive(c) => world.first_open_to(Arm::Send(c)),
        Arm::Accept(entry) => caller(world, p, entry),
    }
}

fn caller(world: &World, owner: u32, entry: u32) -> Option<Partner>
    ensures partner { result ≡ partner_met world.now.rows owner (Arm.Accept entry) }
    ensures waits { IfSome result (λ q. IsWaiting (at world.now.rows q.process)) }
{
    match world.first_at(Why::Call { owner, entry }) {
        Some(process) => Some(Partner {
            process,
            alternative: None,
        }),
        None => None,
    }
}

/// The owner of an entry, where it waits to accept it.
pub(crate) fn acceptance(world: &World, owner: u32, entry: u32) -> Option<Partner>
    requires { owner < length world.now.rows }
    ensures partner { result ≡ acceptance_of owner entry (at world.now.rows owner) }
    ensures waits { IfSome result (λ q. IsWaiting (at world.now.rows owner)) }
{
    match world.state(owner) {
        State::Waiting(Why::Accept(accepts)) if accepts == entry => Some(Partner {
            process: owner,
            alternative: None,
        }),
        State::Waiting(Why::Select { .. }) => match world.offer_at(owner, Arm::Accept(entry)) {
            Some(offer) => Some(Partner {
                process: owner,
                alternative: Some(offer.arm),
            }),
            None => None,
        },
        _ => None,
    }
}
