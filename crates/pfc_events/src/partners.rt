//! Who is met.
ghost use Rattle.std.specs.Prelude.{◌≡◌, ◌<◌, true, length, slice_get, IfSome};
ghost use Rattle.pfc_state.specs.Stands.{IsWaiting};
ghost use Rattle.pfc_state.specs.Waits.{has_arm as has_arm_in};
ghost use Rattle.pfc_world.specs.Partners.{is_accepting as is_accepting_in, partner};
ghost use Rattle.pfc_world.specs.Selects.{matched};
ghost use Rattle.pfc_world.specs.Tables.{at};

use pfc_world::{Arm, State, Why, World};

/// The first process that an alternative of process p meets.
pub(crate) fn partner_of(world: &World, p: u32, arm: Arm) -> Option<u32>
    ensures partner { result ≡ partner world.now.rows p arm }
    ensures waits { IfSome result (λ q. IsWaiting (at world.now.rows q)) }
{
    let open_to = match arm {
        Arm::Send(c) => Arm::Receive(c),
        Arm::Receive(c) => Arm::Send(c),
        Arm::Accept(entry) => return world.first_at(Why::Call { owner: p, entry }),
    };
    match world.first_open_to(open_to) {
        Some(met) => Some(met.process),
        None => None,
    }
}

/// The place, from 0, of the k-th of these alternatives of process p that are matched, because a partner waits; None where fewer are.
#[tactic(auto, using(crate::proofs::Matches::matched_step, crate::proofs::Matches::matched_end, crate::proofs::Matches::number_first, crate::proofs::Matches::number_behind))]
pub(crate) fn place_matched(world: &World, p: u32, arms: &[Arm], k: u32) -> Option<u32>
    requires { length arms.now < 4294967296 }
    ensures { result ≡ slice_get (matched world.now.rows p arms.now) k }
{
    let mut left = k;
    for (place, arm) in arms.iter().enumerate() {
        if partner_of(world, p, *arm).is_some() {
            if left == 0 {
                return Some(place as u32);
            }
            left -= 1;
        }
    }
    None
}

/// Whether a process waits to accept the entry, in a plain statement or in a select.
pub(crate) fn is_accepting(world: &World, owner: u32, entry: u32) -> bool
    ensures answer { result ≡ is_accepting_in world.now.rows owner entry }
    ensures waits { result ≡ true → IsWaiting (at world.now.rows owner) }
{
    if owner >= world.processes() {
        return false;
    }
    match world.state(owner) {
        State::Waiting(Why::Accept(accepts)) => accepts == entry,
        State::Waiting(
            Why::Select {
                due: _,
                terminate: _,
            },
        ) => has_arm(world.arms(owner), Arm::Accept(entry)),
        _ => false,
    }
}

/// Whether an alternative is among these.
fn has_arm(arms: &[Arm], arm: Arm) -> bool
    ensures { result ≡ has_arm_in arm arms.now }
{
    arms.iter().any(|other| other.is_same(arm))
}
