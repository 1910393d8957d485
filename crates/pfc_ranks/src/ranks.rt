//! Delays of processes, and who is delayed in the order of the delays.
ghost use Rattle.std.specs.Prelude.{◌≡◌, ◌≢◌, ◌==◌, ◌<◌, ◌≤◌, ℕ, Bool, true, false, None, Some, length, nat_lt, set, replicate, slice_index_or, is_some};
ghost use Rattle.std.specs.Prelude.{IfOk, MatchOption};
ghost use Rattle.pfc_sorted.specs.Sorted.{passes, IsParted, IsPlace, AreSorted};
ghost use Rattle.pfc_ranks.specs.declared.ranks.Delay.{Delay};
ghost use Rattle.pfc_ranks.specs.Delays.{delay_at, is_before, IsFirst, IsNobody};
ghost use Rattle.pfc_ranks.specs.Sorted.{comes_first};

use pfc_base::Memory;
use pfc_sorted::{count_passing, put_in, take_out};
use std::alloc::Global;
use std::collections::VecDeque;
use std::marker::Model;

/// A wait at an object, by its number from 0, with a rank and a ticket.
#[derive(Clone, Copy, Debug, PartialEq, Eq)]
pub struct Delay {
    pub object: u32,
    pub rank: i32,
    pub ticket: u64,
}

impl Delay {
    /// Whether it comes before another: at a lesser object, at the same object with a lesser rank, or with the same
    /// rank with a lesser ticket.
    pub fn is_before(self, other: Delay) -> bool
        ensures { result ≡ is_before self other }
    {
        if self.object != other.object {
            return self.object < other.object;
        }
        if self.rank != other.rank {
            return self.rank < other.rank;
        }
        self.ticket < other.ticket
    }
}

/// The delays of processes. A contract sees of each process, from 0 on, its delay, if it has one.
#[derive(Drop)]
pub struct Ranks {
    /// who is delayed, by objects, ranks and tickets
    sorted: VecDeque<u16>,
    /// the delay of each process
    delays: Vec<Option<Delay>>,
}

impl Model for Ranks {
    ghost use Rattle.std.specs.Prelude.{Option, List};
    ghost use Rattle.std.specs.Prelude.{◌≤◌, length};
    ghost use Rattle.std.specs.VecDeque.{deque_capacity};
    ghost use Rattle.pfc_sorted.specs.Sorted.{AreSorted};
    ghost use Rattle.pfc_ranks.specs.declared.ranks.Delay.{Delay};
    ghost use Rattle.pfc_ranks.specs.Sorted.{comes_first};

    ghost Value = { List (Option Delay) };

    ghost view = { λ r. r.delays.items };

    ghost invariant = { λ r. AreSorted comes_first r.sorted.items r.delays.items
        × (length r.delays.items ≤ deque_capacity r.sorted) × (length r.delays.items ≤ 1024) };
}

impl Ranks {
    /// Room for so many processes, of which none is delayed. Its only refusal is want of memory; no other call takes
    /// memory.
    pub fn new(alloc: Global, processes: u32) -> Result<Ranks, Memory>
        requires { processes ≤ 1024 }
        ensures { IfOk result (λ r. r ≡ replicate processes None) }
    {
        let sorted = VecDeque::with_capacity(alloc, processes as usize)?;
        let mut delays = Vec::with_capacity(alloc, processes as usize)?;
        for _p in 0..processes {
            delays.push(None)?;
        }
        Ok(Ranks { sorted, delays })
    }

    /// The first at an object: who is delayed there with the least rank, and at that rank with the least ticket.
    pub fn first(&self, object: u32) -> Option<u32>
        ensures { MatchOption result (IsNobody self.now object) (IsFirst self.now object) }
    {
        let delays = self.delays.as_slice();
        let place = start_of(&self.sorted, delays, object);
        match self.sorted.get(place) {
            Some(first) if is_at(delays, *first, object) => Some(u32::from(*first)),
            _ => None,
        }
    }

    /// A process that is not delayed has this delay from now on. Nobody else has its ticket.
    pub fn put(&mut self, process: u32, delay: Delay)
        requires process { process < length self.old }
        requires free { delay_at self.old process ≡ None }
        requires apart { (q : ℕ) (other : Delay) → delay_at self.old q ≡ Some other → other.ticket ≢ delay.ticket }
        ensures { self.new ≡ set self.old process (Some delay) }
    {
        let place = place_of(&self.sorted, &self.delays, delay);
        put_in(&mut self.sorted, place, process as u16);
        self.delays[process as usize] = Some(delay);
    }

    /// A process is delayed no more.
    pub fn remove(&mut self, process: u32)
        requires { process < length self.old }
        ensures { self.new ≡ set self.old process None }
    {
        if let Some(delay) = self.delays[process as usize] {
            let place = place_of_process(&self.sorted, &self.delays, process, delay);
            take_out(&mut self.sorted, place);
            self.delays[process as usize] = None;
        }
    }
}

/// Whether a process is delayed at this object.
fn is_at(delays: &[Option<Delay>], process: u16, object: u32) -> bool
    ensures { result ≡ passes (λ p other. other.object == object) delays.now process }
{
    match delays.get(process as usize) {
        Some(Some(other)) => other.object == object,
        _ => false,
    }
}

/// Whether a process is delayed at a lesser object.
fn is_lower(delays: &[Option<Delay>], process: u16, object: u32) -> bool
    ensures { result ≡ passes (λ p other. nat_lt other.object object) delays.now process }
{
    match delays.get(process as usize) {
        Some(Some(other)) => other.object < object,
        _ => false,
    }
}

/// Whether the delay of a process comes before this one.
fn comes_before(delays: &[Option<Delay>], process: u16, delay: Delay) -> bool
    ensures { result ≡ passes (λ p other. is_before other delay) delays.now process }
{
    match delays.get(process as usize) {
        Some(Some(other)) => other.is_before(delay),
        _ => false,
    }
}

/// Where the process stands, which has this delay.
fn place_of_process(
    sorted: &VecDeque<u16>,
    delays: &[Option<Delay>],
    process: u32,
    delay: Delay,
) -> usize
    requires sorted { AreSorted comes_first sorted.now.items delays.now }
    requires own { delay_at delays.now process ≡ Some delay }
    ensures { IsPlace sorted.now.items process result }
{
    // Whoever is let on is mostly the first.
    match sorted.front() {
        Some(first) if u32::from(*first) == process => 0,
        _ => count_before(sorted, delays, delay),
    }
}

/// Where a new delay belongs: how many come before it.
fn place_of(sorted: &VecDeque<u16>, delays: &[Option<Delay>], delay: Delay) -> usize
    requires { AreSorted comes_first sorted.now.items delays.now }
    ensures { IsParted (passes (λ p other. is_before other delay) delays.now) sorted.now.items result }
{
    // Where ranks are equal, tickets rise, and whoever begins to wait is the last.
    match sorted.back() {
        Some(last) if !comes_before(delays, *last, delay) => count_before(sorted, delays, delay),
        _ => sorted.len(),
    }
}

/// How many come before this delay.
fn count_before(sorted: &VecDeque<u16>, delays: &[Option<Delay>], delay: Delay) -> usize
    requires { AreSorted comes_first sorted.now.items delays.now }
    ensures { IsParted (passes (λ p other. is_before other delay) delays.now) sorted.now.items result }
{
    count_passing(sorted, |p| comes_before(delays, *p, delay))
}

/// Where those at an object begin: how many are delayed at lesser objects.
fn start_of(sorted: &VecDeque<u16>, delays: &[Option<Delay>], object: u32) -> usize
    requires { AreSorted comes_first sorted.now.items delays.now }
    ensures { IsParted (passes (λ p other. nat_lt other.object object) delays.now) sorted.now.items result }
{
    // Where all wait at one object, or at greater ones, none stands before its first.
    match sorted.front() {
        Some(first) if is_lower(delays, *first, object) => {
            count_passing(sorted, |p| is_lower(delays, *p, object))
        }
        _ => 0,
    }
}
