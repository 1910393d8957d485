//! The alternatives that a process has made, and the meetings that it has begun.
ghost use Rattle.std.specs.Prelude.{◌≡◌, ◌≤◌, ◌<◌, ◌+◌, ◌∷◌, ◌++◌, Some, length, take, drop, reverse, slice_get, OnOk, OnErr};
ghost use Rattle.pfc_stacks.specs.Conditions.{AreLive};
ghost use Rattle.pfc_stacks.specs.Stacks.{operands_of, written};
ghost use Rattle.pfc_machines.specs.Communications.{no_communications, with_room_above, IsRoomBetween};
ghost use Rattle.pfc_machines.specs.Offers.{arms_of, words_in, kept_under, last_made, message_of, first_sought, communications, made_by, without_last, without};

use crate::rooms::NO_ROOM;
use crate::{Alternative, KeptAlternative, Room, Sought};
use pfc_base::Memory;
use pfc_stacks::{Ref, Stacks};
use pfc_world::Arm;
use std::alloc::Global;
use std::marker::Model;

/// The alternatives that the activations of a process have made, the words of the messages that they send, and the callers of the meetings that
/// it has begun and not ended. The arms of the alternatives stand beside them, as the table of processes takes them. Contracts see what was made
/// or begun last first, and the last word of a message before the others, as they see operands.
#[derive(Drop)]
pub struct Communications {
    alternatives: Vec<Alternative>,
    arms: Vec<Arm>,
    words: Vec<i64>,
    callers: Vec<u32>,
    room: Room,
}

impl Model for Communications {
    ghost use Rattle.std.specs.Prelude.{◌≡◌, ◌≤◌, length, reverse, vec_capacity};
    ghost use Rattle.pfc_machines.specs.Communications.{Communicating};
    ghost use Rattle.pfc_machines.specs.Offers.{arms_of};

    ghost Value = { Communicating };

    ghost view = { λ e. record {
      alternatives = reverse e.alternatives.items;
      words = reverse e.words.items;
      callers = reverse e.callers.items;
      room = e.room;
    } };

    ghost invariant = { λ e. (length e.alternatives.items ≤ e.room.alternatives) × (e.room.alternatives ≤ vec_capacity e.alternatives)
        × (e.arms.items ≡ arms_of (reverse e.alternatives.items))
        × (length e.arms.items ≤ length e.alternatives.items) × (e.room.alternatives ≤ vec_capacity e.arms)
        × (length e.words.items ≤ e.room.words) × (e.room.words ≤ vec_capacity e.words)
        × (length e.callers.items ≤ e.room.meetings) × (e.room.meetings ≤ vec_capacity e.callers) };
}

impl Communications {
    /// None, with room for none.
    pub(crate) fn none(alloc: Global) -> Communications
        ensures { result ≡ no_communications }
    {
        Communications {
            alternatives: Vec::new(alloc),
            arms: Vec::new(alloc),
            words: Vec::new(alloc),
            callers: Vec::new(alloc),
            room: NO_ROOM,
        }
    }

    /// For how much there is room: at least for what there is.
    pub(crate) fn room(&self) -> Room
        ensures room { result ≡ self.now.room }
        ensures between { IsRoomBetween self.now result }
    {
        self.room
    }

    /// Takes so much room above what there is. All memory is taken before anything is changed.
    pub(crate) fn make_room(&mut self, room: Room) -> Result<(), Memory>
        ensures ok { OnOk result (self.new ≡ with_room_above self.old room) }
        ensures err { OnErr result (self.new ≡ self.old) }
    {
        self.alternatives.reserve(room.alternatives)?;
        let all = self.alternatives.len() + room.alternatives;
        self.arms.reserve(all - self.arms.len())?;
        self.words.reserve(room.words)?;
        self.callers.reserve(room.meetings)?;
        self.room = Room {
            alternatives: all.max(self.room.alternatives),
            words: (self.words.len() + room.words).max(self.room.words),
            meetings: (self.callers.len() + room.meetings).max(self.room.meetings),
        };
        Ok(())
    }

    /// There is room for so much and no more: what there is has room in it, and it is no more than there was.
    pub(crate) fn set_room(&mut self, room: Room)
        requires { IsRoomBetween self.old room }
        ensures { self.new ≡ record self.old { room = room } }
    {
        self.room = room;
    }

    /// Forgets all, and keeps the room.
    pub(crate) fn clear(&mut self)
        ensures { self.new ≡ record no_communications { room = self.old.room } }
    {
        self.alternatives.clear();
        self.arms.clear();
        self.words.clear();
        self.callers.clear();
    }

    /// Keeps a word of the message of the alternative that is made next.
    fn keep_word(&mut self, w: i64)
        requires { length self.old.words < self.old.room.words }
        ensures { self.new ≡ record self.old { words = w ∷ self.old.words } }
    {
        self.words.push_reserved(w);
    }

    /// Keeps the z words on top of the operands of a process, as those of the message of the alternative that is made next.
    pub(crate) fn keep_message(&mut self, stacks: &Stacks, p: u32, z: u32)
        requires held { z ≤ length (operands_of stacks.now p) }
        requires room { length self.old.words + z ≤ self.old.room.words }
        ensures { self.new ≡ record self.old { words = take z (operands_of stacks.now p) ++ self.old.words } }
    {
        for j in 0..z {
            self.keep_word(stacks.top(p, z - 1 - j));
        }
    }

    /// One alternative more.
    pub(crate) fn make(&mut self, a: Alternative)
        requires { length self.old.alternatives < self.old.room.alternatives }
        ensures { self.new ≡ record self.old { alternatives = a ∷ self.old.alternatives } }
    {
        self.alternatives.push_reserved(a);
        if let Some(arm) = a.offer.arm() {
            self.arms.push_reserved(arm);
        }
    }
}

impl Communications {
    /// The alternative at a place, the last made at 0.
    fn alternative(&self, j: usize) -> Alternative
        requires { j < length self.now.alternatives }
        ensures { slice_get self.now.alternatives j ≡ Some result }
    {
        self.alternatives[self.alternatives.len() - 1 - j]
    }

    /// How many of the last alternatives an activation has made.
    pub fn made_by(&self, activation: u32) -> usize
        ensures made { result ≡ made_by activation self.now.alternatives }
        ensures few { result ≤ length self.now.alternatives }
    {
        for j in 0..self.alternatives.len() {
            if self.alternative(j).activation != activation {
                return j;
            }
        }
        self.alternatives.len()
    }

    /// The first of a kind among the last n alternatives, in the order in which they were made.
    pub fn first(&self, n: u32, sought: Sought) -> Option<KeptAlternative>
        requires { n ≤ length self.now.alternatives }
        ensures { result ≡ first_sought sought (last_made n self.now) }
    {
        let mut found = None;
        let mut above = 0;
        for j in 0..n {
            let alternative = self.alternative(j as usize);
            if alternative.offer.is(sought) {
                found = Some(KeptAlternative { alternative, above });
            }
            above += alternative.offer.words() as usize;
        }
        found
    }

    /// How many arms the last n alternatives have.
    fn arms_in(&self, n: u32) -> usize
        requires { n ≤ length self.now.alternatives }
        ensures { result ≡ length (arms_of (take n self.now.alternatives)) }
    {
        let mut count = 0;
        for j in 0..n {
            count += self.alternative(j as usize).offer.arms();
        }
        count
    }

    /// The arms of the last n alternatives, in the order in which they were made.
    pub fn arms(&self, n: u32) -> &[Arm]
        requires { n ≤ length self.now.alternatives }
        ensures { result.now ≡ arms_of (take n self.now.alternatives) }
    {
        let earlier = self.arms.len() - self.arms_in(n);
        &self.arms[earlier..]
    }

    /// The alternative at a place, from 0, of those that communicate among the last n, in the order in which they were made.
    pub fn communication(&self, n: u32, place: u32) -> Option<KeptAlternative>
        requires { n ≤ length self.now.alternatives }
        ensures { result ≡ slice_get (communications (last_made n self.now)) place }
    {
        let mut left = self.arms_in(n);
        let mut above = 0;
        for j in 0..n {
            let alternative = self.alternative(j as usize);
            let arms = alternative.offer.arms();
            left -= arms;
            if arms == 1 && left == place as usize {
                return Some(KeptAlternative { alternative, above });
            }
            above += alternative.offer.words() as usize;
        }
        None
    }

    /// The last alternative is gone, with its message.
    fn forget_last(&mut self)
        ensures { self.new ≡ without_last self.old self.old.alternatives }
    {
        if let Some(last) = self.alternatives.pop() {
            let arms = self.arms.len().saturating_sub(last.offer.arms());
            self.arms.truncate(arms);
            let words = self.words.len().saturating_sub(last.offer.words() as usize);
            self.words.truncate(words);
        }
    }

    /// The last n alternatives are gone, with their messages.
    pub(crate) fn forget(&mut self, n: u32)
        ensures { self.new ≡ without n self.old }
    {
        let mut left = n;
        while left > 0 {
            self.forget_last();
            left -= 1;
        }
    }

    /// Writes the message of an alternative to the cells from an address on.
    pub fn write_message(&self, k: KeptAlternative, stacks: &mut Stacks, to: Ref)
        requires held { k.above + words_in k.alternative.offer ≤ length self.now.words }
        requires live { AreLive stacks.old to (words_in k.alternative.offer) }
        ensures { stacks.new ≡ written stacks.old to (reverse (message_of self.now k)) }
    {
        stacks.write_words(to, self.message(k));
    }

    /// The words of the message of an alternative, the first word first.
    fn message(&self, k: KeptAlternative) -> &[i64]
        requires { k.above + words_in k.alternative.offer ≤ length self.now.words }
        ensures words { result.now ≡ reverse (message_of self.now k) }
        ensures count { length result.now ≡ words_in k.alternative.offer }
    {
        let below = &self.words[..self.words.len() - k.above];
        &below[below.len() - k.alternative.offer.words() as usize..]
    }
}

impl Communications {
    /// The caller of the meeting that was begun last; None where none is open.
    pub fn caller(&self) -> Option<u32>
        ensures { result ≡ slice_get self.now.callers 0 }
    {
        self.callers.last().copied()
    }

    /// A meeting with a caller begins.
    pub(crate) fn begin_meeting(&mut self, caller: u32)
        requires { length self.old.callers < self.old.room.meetings }
        ensures { self.new ≡ record self.old { callers = caller ∷ self.old.callers } }
    {
        self.callers.push_reserved(caller);
    }

    /// The meeting that was begun last ends.
    pub(crate) fn end_meeting(&mut self)
        ensures { self.new ≡ record self.old { callers = drop 1 self.old.callers } }
    {
        let _caller = self.callers.pop();
    }
}
