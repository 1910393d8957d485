//! The alternatives of a select that waits, in room that was taken before.
ghost use Rattle.std.specs.Prelude.{◌≡◌, ◌≤◌, [], ◌<◌, length, IfOk, IfSome};
ghost use Rattle.pfc_state.specs.Waits.{place_of_arm};

use crate::Arm;
use pfc_base::Memory;
use std::alloc::Global;
use std::marker::Model;

/// A list of alternatives that is replaced as a whole and never grows past its room.
#[derive(Drop)]
pub struct Offers {
    room: u32,
    arms: Vec<Arm>,
}

impl Model for Offers {
    ghost use Rattle.std.specs.Prelude.{◌≤◌, length, vec_capacity};
    ghost use Rattle.pfc_state.specs.Seats.{Offering};

    ghost Value = { Offering };

    ghost view = { λ o. record { room = o.room; arms = o.arms.items } };

    ghost invariant = { λ o. (o.room ≤ vec_capacity o.arms) × (length o.arms.items ≤ o.room) };
}

impl Offers {
    /// Room for this many alternatives. Its only refusal is want of memory.
    pub fn new(alloc: Global, room: u32) -> Result<Offers, Memory>
        ensures { IfOk result (λ o. o ≡ record { room = room; arms = [] }) }
    {
        let arms = Vec::with_capacity(alloc, room as usize)?;
        Ok(Offers { room, arms })
    }

    /// These alternatives in place of those before. It takes no memory.
    pub fn offer(&mut self, arms: &[Arm])
        requires { length arms.now ≤ self.old.room }
        ensures { self.new ≡ record { room = self.old.room; arms = arms.now } }
    {
        self.arms.clear();
        self.arms.extend_from_slice(arms).unwrap();
    }

    /// The alternatives, in the order in which they were offered.
    pub fn arms(&self) -> &[Arm]
        ensures { result.now ≡ self.now.arms }
    {
        &self.arms
    }

    /// The first place of the alternative among these, from 0.
    pub fn place_of(&self, arm: Arm) -> Option<u32>
        ensures { result ≡ place_of_arm arm self.now.arms }
    {
        let _room = self.room;
        match place_among(&self.arms, arm) {
            Some(place) => Some(place as u32),
            None => None,
        }
    }
}

fn place_among(arms: &[Arm], arm: Arm) -> Option<usize>
    ensures place { result ≡ place_of_arm arm arms.now }
    ensures within { IfSome result (λ place. place < length arms.now) }
{
    arms.iter().position(|a| a.is_same(arm))
}
