//! Lists of processes, linked both ways.
ghost use Rattle.std.specs.Prelude.{◌≡◌, ◌<◌, ◌≤◌, ◌+◌, ◌^◌, ℕ, true, false, None, Some, if◌then◌else◌, length, nat_lt, set, replicate, slice_index_or};
ghost use Rattle.std.specs.Prelude.{is_some, IfOk, MatchOption};
ghost use Rattle.pfc_links.specs.Members.{member_at, in_list, IsFirst, IsLast, IsEmpty, IsNext, IsNobodyAbove, IsPrevious, IsNobodyBelow};

use pfc_base::Memory;
use std::alloc::Global;
use std::marker::Model;

/// What a process is a member of: a list, by its number from 0, with a ticket, from 1.
#[derive(Clone, Copy, Debug, PartialEq, Eq)]
pub struct Member {
    pub list: u32,
    pub ticket: u64,
}

/// Lists of processes. Each process is in one list or in none, and in its list it stands in the order of tickets.
/// A contract sees of each process, from 0 on, what it is a member of, and how many lists there are.
#[derive(Drop)]
pub struct Links {
    lists: u32,
    members: Vec<Option<Member>>,
    /// whom each process has behind it, and then who is first in each list: a process, or the end of its list
    next: Vec<u32>,
    /// whom each process has before it, and then who is last in each list
    previous: Vec<u32>,
}

impl Model for Links {
    ghost use Rattle.pfc_links.specs.Members.{Lists};
    ghost use Rattle.pfc_links.specs.Linked.{AreLinked};

    ghost Value = { Lists };

    ghost view = { λ l. record { members = l.members.items; lists = l.lists } };

    ghost invariant = { λ l. AreLinked l.members.items l.lists l.next.items l.previous.items };
}

impl Links {
    /// So many empty lists, and room for so many processes. Its only refusal is want of memory; no other call
    /// takes memory.
    pub fn new(alloc: Global, processes: u32, lists: u32) -> Result<Links, Memory>
        requires { processes + lists < 2 ^ 31 }
        ensures { IfOk result (λ l. l ≡ record { members = replicate processes None; lists = lists }) }
    {
        let mut members = Vec::with_capacity(alloc, processes as usize)?;
        for _p in 0..processes {
            members.push(None)?;
        }
        let next = ends(alloc, processes, lists)?;
        let previous = ends(alloc, processes, lists)?;
        Ok(Links {
            lists,
            members,
            next,
            previous,
        })
    }

    /// The first of a list.
    pub fn first(&self, list: u32) -> Option<u32>
        requires { list < self.now.lists }
        ensures { MatchOption result (IsEmpty self.now.members list) (IsFirst self.now.members list) }
    {
        self.process(self.next[self.end(list)])
    }

    /// Who is behind a member of a list.
    pub fn next(&self, p: u32) -> Option<u32>
        requires { p < length self.now.members }
        ensures { (list t : ℕ) → member_at self.now.members p ≡ in_list list t →
            MatchOption result (IsNobodyAbove self.now.members list t) (IsNext self.now.members list t) }
    {
        self.process(self.next[p as usize])
    }

    /// The last of a list.
    pub fn last(&self, list: u32) -> Option<u32>
        requires { list < self.now.lists }
        ensures { MatchOption result (IsEmpty self.now.members list) (IsLast self.now.members list) }
    {
        self.process(self.previous[self.end(list)])
    }

    /// Who is before a member of a list.
    pub fn previous(&self, p: u32) -> Option<u32>
        requires { p < length self.now.members }
        ensures { (list t : ℕ) → member_at self.now.members p ≡ in_list list t →
            MatchOption result (IsNobodyBelow self.now.members list t) (IsPrevious self.now.members list t) }
    {
        self.process(self.previous[p as usize])
    }

    /// Whether a process is in a list.
    pub fn is_member(&self, p: u32) -> bool
        requires { p < length self.now.members }
        ensures { result ≡ is_some (member_at self.now.members p) }
    {
        self.members[p as usize].is_some()
    }

    /// A process that is in no list is the last of this one from now on. Its ticket is above all others there.
    pub fn append(&mut self, p: u32, list: u32, ticket: u64)
        requires process { p < length self.old.members }
        requires list { list < self.old.lists }
        requires free { member_at self.old.members p ≡ None }
        requires from_one { 0 < ticket }
        requires last { (q t : ℕ) → member_at self.old.members q ≡ in_list list t → t < ticket }
        ensures { self.new ≡ record self.old { members = set self.old.members p (in_list list ticket) } }
    {
        let end = self.end(list);
        let last = self.previous[end];
        self.next[last as usize] = p;
        self.next[p as usize] = end as u32;
        self.previous[end] = p;
        self.previous[p as usize] = last;
        self.members[p as usize] = Some(Member { list, ticket });
    }

    /// A member of a list is in none from now on.
    pub fn remove(&mut self, p: u32)
        requires process { p < length self.old.members }
        requires member { is_some (member_at self.old.members p) ≡ true }
        ensures { self.new ≡ record self.old { members = set self.old.members p None } }
    {
        let before = self.previous[p as usize];
        let behind = self.next[p as usize];
        self.next[before as usize] = behind;
        self.previous[behind as usize] = before;
        self.members[p as usize] = None;
    }
}

impl Links {
    /// The place of the end of a list among the links, which is behind its last and before its first.
    fn end(&self, list: u32) -> usize
        requires { list < self.now.lists }
        ensures { result ≡ length self.now.members + list }
    {
        self.members.len() + list as usize
    }

    fn process(&self, place: u32) -> Option<u32>
        ensures { result ≡ (if nat_lt place (length self.now.members) then Some place else None) }
    {
        if (place as usize) < self.members.len() {
            Some(place)
        } else {
            None
        }
    }
}

/// The links of empty lists: the end of each is behind and before itself.
fn ends(alloc: Global, processes: u32, lists: u32) -> Result<Vec<u32>, Memory>
    requires { processes + lists < 2 ^ 31 }
    ensures length { IfOk result (λ v. length v.items ≡ processes + lists) }
    ensures each { IfOk result (λ v. (k : ℕ) → k < processes + lists → slice_index_or v.items k 0 ≡ k) }
{
    let mut links = Vec::with_capacity(alloc, (processes + lists) as usize)?;
    for place in 0..processes + lists {
        links.push(place)?;
    }
    Ok(links)
}
