//! Which alternatives are matched, because a partner waits.
ghost use Rattle.std.specs.Prelude.{◌≡◌, ◌<◌, ◌≤◌, length, IfOk, IfSome};
ghost use Rattle.pfc_state.specs.Stands.{IsWaiting};
ghost use Rattle.pfc_world.specs.Partners.{partner};
ghost use Rattle.pfc_world.specs.Selects.{matched};
ghost use Rattle.pfc_world.specs.Tables.{at};
ghost use Rattle.pfc_deciding.specs.Matching.{AreArms, IsMatched};

use pfc_activities::State;
use pfc_base::Memory;
use pfc_meeting::arms_of_all;
use pfc_pending::Open;
use pfc_world::{Arm, Why, World};
use std::alloc::Global;

/// A matched alternative: its place among those that communicate, itself, and the process that it meets.
#[derive(Clone, Copy)]
pub(crate) struct Matched {
    pub(crate) place: u32,
    pub(crate) arm: Arm,
    pub(crate) partner: u32,
}

/// The alternatives of the process that communicate, as the table has them. They are refused where memory is, and where they do not fit the
/// table, which never comes.
pub(crate) fn arms_here<'t>(
    alloc: Global,
    state: &State<'t>,
    p: u32,
    opens: &[Open<'t>],
) -> Result<Vec<Arm>, Memory>
    requires { p < length state.now.activities.items }
    ensures arms { IfOk result (λ arms. AreArms state.now p opens.now arms.items) }
    ensures few { IfOk result (λ arms. length arms.items ≤ state.now.world.room) }
    ensures fit { IfOk result (λ arms. length arms.items < 4294967296) }
{
    let display = &state.activities[p as usize].display;
    let arms = arms_of_all(alloc, &state.store, display, opens)?;
    if arms.len() > state.world.room() as usize {
        return Err(Memory);
    }
    Ok(arms)
}

/// The first process that an alternative of process p meets.
fn partner_of(world: &World, p: u32, arm: Arm) -> Option<u32>
    ensures partner { result ≡ partner world.now.rows p arm }
    ensures waits { IfSome result (λ q. IsWaiting (at world.now.rows q)) }
{
    let open_to = match arm {
        Arm::Send(c) => Arm::Receive(c),
        Arm::Receive(c) => Arm::Send(c),
        Arm::Accept(entry) => return world.first_at(Why::Call { owner: p, entry }),
    };
    match world.first_open_to(open_to) {
        Some(met) => Some(met.process),
        None => None,
    }
}

/// The matched alternative at place k, from 0, among those that are matched.
pub(crate) fn matched_at(world: &World, p: u32, arms: &[Arm], k: u32) -> Option<Matched>
    requires { length arms.now < 4294967296 }
    ensures matched { IfSome result (λ m. IsMatched world.now.rows p arms.now k m) }
    ensures waits { IfSome result (λ m. IsWaiting (at world.now.rows m.partner)) }
{
    let mut left = k;
    for (place, arm) in arms.iter().enumerate() {
        if let Some(partner) = partner_of(world, p, *arm) {
            if left == 0 {
                return Some(Matched {
                    place: place as u32,
                    arm: *arm,
                    partner,
                });
            }
            left -= 1;
        }
    }
    None
}
