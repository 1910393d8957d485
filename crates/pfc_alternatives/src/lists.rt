//! In which list an alternative stands.
ghost use Rattle.std.specs.Prelude.{◌≡◌, ◌<◌, ◌≤◌};
ghost use Rattle.pfc_alternatives.specs.Lists.{list_count, list_of};

use pfc_state::Arm;

/// The most lists that each kind of alternatives has.
const MOST_PLACES: u32 = 262_144;

/// How many lists each kind has, where so many are asked for: at least one, and at most 262,144.
pub(crate) fn places_for(objects: u32) -> u32
    ensures some { 0 < result }
    ensures few { result ≤ 262144 }
{
    objects.max(1).min(MOST_PLACES)
}

/// The list of an alternative, where each kind has so many. Those of one kind whose numbers differ by a multiple of this
/// share a list.
pub(crate) fn list_of(places: u32, arm: Arm) -> u32
    requires some { 0 < places }
    requires few { places ≤ 262144 }
    ensures list { result ≡ list_of places arm }
    ensures known { result < list_count places }
{
    match arm {
        Arm::Send(c) => c % places * 3,
        Arm::Receive(c) => c % places * 3 + 1,
        Arm::Accept(e) => e % places * 3 + 2,
    }
}
