//! The alternatives with which processes wait, in lists.
ghost use Rattle.std.specs.Prelude.{◌≡◌, ◌≢◌, ◌<◌, ◌≤◌, ◌+◌, ◌*◌, ◌/◌, ℕ, true, None, length, replicate, IfOk, MatchOption};
ghost use Rattle.pfc_links.specs.Members.{member_at, in_list, IsEmpty, IsFirst, IsNext, IsNobodyAbove};
ghost use Rattle.pfc_state.specs.declared.waits.Arm.{Arm};
ghost use Rattle.pfc_state.specs.Waits.{has_arm};
ghost use Rattle.pfc_alternatives.specs.Lists.{list_count, list_of};
ghost use Rattle.pfc_alternatives.specs.Nodes.{node_at, IsProcess, IsIn, AreBefore, AreEarlier, IsLastOf, KeepsOthers};

use crate::lists::{list_of, places_for};
use pfc_base::Memory;
use pfc_links::Links;
use pfc_state::Arm;
use std::alloc::Global;
use std::marker::Model;

/// The alternatives with which processes wait in selects. Each alternative is in the list of its channel or
/// entry, in the order of tickets; where a process has several in one list, the first of them stands there for
/// all. A contract sees what each place of each process is a member of.
#[derive(Drop)]
pub struct Alternatives {
    /// how many lists each kind of alternatives has
    places: u32,
    /// how many alternatives each process has room for
    room: u32,
    /// the places: those of a process stand one behind the other
    nodes: Links,
}

impl Model for Alternatives {
    ghost use Rattle.pfc_alternatives.specs.Nodes.{Nodes, AreNodes};

    ghost Value = { Nodes };

    ghost view = { λ a. record { places = a.places; room = a.room; members = a.nodes.members } };

    ghost invariant = { λ a. AreNodes a.places a.nodes };
}

impl Alternatives {
    /// Nobody waits with any; there is room for so many processes with so many alternatives each. Each kind of
    /// alternatives has as many lists as there are objects, but at least one and at most 262,144: where all numbers of
    /// channels and entries are below this, no two share a list. Its only refusal is want of memory, which it takes for
    /// each place and each list; no other call takes memory.
    pub fn new(
        alloc: Global,
        processes: u32,
        room: u32,
        objects: u32,
    ) -> Result<Alternatives, Memory>
        ensures room { IfOk result (λ a. a.room ≡ room) }
        ensures members { IfOk result (λ a. a.members ≡ replicate (processes * room) None) }
    {
        let Some(places) = processes.checked_mul(room) else {
            return Err(Memory);
        };
        if places >= MOST_PLACES {
            return Err(Memory);
        }
        let lists = places_for(objects);
        Ok(Alternatives {
            places: lists,
            room,
            nodes: Links::new(alloc, places, lists * 3)?,
        })
    }

    /// The first in the list of an alternative.
    pub fn first(&self, arm: Arm) -> Option<u32>
        ensures { MatchOption result (IsEmpty self.now.members (list_of self.now.places arm)) (IsFirst self.now.members (list_of self.now.places arm)) }
    {
        self.nodes.first(list_of(self.places, arm))
    }

    /// What is behind a place in its list.
    pub fn next(&self, node: u32) -> Option<u32>
        requires { node < length self.now.members }
        ensures { (list t : ℕ) → member_at self.now.members node ≡ in_list list t →
            MatchOption result (IsNobodyAbove self.now.members list t) (IsNext self.now.members list t) }
    {
        self.nodes.next(node)
    }

    /// Whose place it is.
    pub fn process_of(&self, node: u32) -> u32
        requires { 0 < self.now.room }
        ensures { result ≡ node / self.now.room }
    {
        node / self.room
    }

    /// A process that waited with no alternative waits with these, since the action of this number, which is
    /// above all others.
    pub fn offer(&mut self, p: u32, arms: &[Arm], ticket: u64)
        requires process { IsProcess self.old p }
        requires room { length arms.now ≤ self.old.room }
        requires free { AreBefore self.old p 0 ticket }
        requires last { AreEarlier self.old p ticket }
        requires from_one { 0 < ticket }
        ensures offered { (arm : Arm) → has_arm arm arms.now ≡ true → IsIn self.new p (list_of self.old.places arm) ticket }
        ensures only { AreBefore self.new p (length arms.now) ticket }
        ensures others { KeepsOthers self.old self.new p }
    {
        // this also tells that a place fits its type
        let _room = self.room;
        for place in 0..arms.len() {
            self.offer_one(p, place as u32, arms[place], ticket);
        }
    }

    /// A process waits with none of its alternatives any more, of which there were so many.
    pub fn withdraw(&mut self, p: u32, count: usize)
        requires process { IsProcess self.old p }
        requires room { count ≤ self.old.room }
        requires only { (k list t : ℕ) → k < self.old.room → node_at self.old p k ≡ in_list list t → k < count }
        ensures none { (k : ℕ) → k < self.old.room → node_at self.new p k ≡ None }
        ensures others { KeepsOthers self.old self.new p }
    {
        // this also tells that a place fits its type
        let _room = self.room;
        for place in 0..count {
            self.withdraw_one(p, place as u32);
        }
    }
}

/// A bound of the places, far above those of any table of processes.
const MOST_PLACES: u32 = 2_000_000_000;

impl Alternatives {
    /// One more alternative of a process, at the place behind the others. Where the last of its list is another
    /// of this process, that one stands there for both.
    fn offer_one(&mut self, p: u32, place: u32, arm: Arm, ticket: u64)
        requires process { IsProcess self.old p }
        requires room { place < self.old.room }
        requires free { AreBefore self.old p place ticket }
        requires last { AreEarlier self.old p ticket }
        requires from_one { 0 < ticket }
        ensures offered { IsIn self.new p (list_of self.old.places arm) ticket }
        ensures kept { (list : ℕ) → IsIn self.old p list ticket → IsIn self.new p list ticket }
        ensures only { AreBefore self.new p (place + 1) ticket }
        ensures others { KeepsOthers self.old self.new p }
    {
        let list = list_of(self.places, arm);
        if self.last_process(list) != Some(p) {
            let node = self.node(p, place);
            self.nodes.append(node, list, ticket);
        }
    }

    fn withdraw_one(&mut self, p: u32, place: u32)
        requires process { IsProcess self.old p }
        requires room { place < self.old.room }
        ensures none { node_at self.new p place ≡ None }
        ensures rest { (k : ℕ) → k ≢ place → k < self.old.room → node_at self.new p k ≡ node_at self.old p k }
        ensures others { KeepsOthers self.old self.new p }
    {
        let node = self.node(p, place);
        if self.nodes.is_member(node) {
            self.nodes.remove(node);
        }
    }

    /// Whose place is the last of a list.
    fn last_process(&self, list: u32) -> Option<u32>
        requires known { list < list_count self.now.places }
        requires room { 0 < self.now.room }
        ensures { MatchOption result (IsEmpty self.now.members list) (IsLastOf self.now list) }
    {
        match self.nodes.last(list) {
            Some(node) => Some(self.process_of(node)),
            None => None,
        }
    }

    /// The number of a place of a process.
    fn node(&self, p: u32, place: u32) -> u32
        requires process { IsProcess self.now p }
        requires room { place < self.now.room }
        ensures { result ≡ p * self.now.room + place }
    {
        p * self.room + place
    }
}
