//! Due moments of processes, and who is due in the order of the moments.
ghost use Rattle.std.specs.Prelude.{◌≡◌, ◌<◌, ◌≤◌, ℕ, Bool, true, false, None, Some, length, set, replicate, slice_index_or, is_some, option_map, IfOk};
ghost use Rattle.std.specs.Prelude.{MatchOption};
ghost use Rattle.pfc_sorted.specs.Sorted.{passes, IsParted, IsPlace, AreSorted};
ghost use Rattle.pfc_moments.specs.Moments.{moment_at, is_sooner, IsFirst, IsNobody};
ghost use Rattle.pfc_moments.specs.Sorted.{due, comes_first};

use pfc_base::Memory;
use pfc_sorted::{count_passing, put_in, take_out};
use std::alloc::Global;
use std::collections::VecDeque;
use std::marker::Model;

/// A process that is due at a moment.
#[derive(Clone, Copy, Debug, PartialEq, Eq)]
pub struct Due {
    pub moment: u64,
    pub process: u32,
}

impl Due {
    /// Whether it comes before another: at an earlier moment, or at the same moment with a lesser number.
    pub fn is_sooner(self, other: Due) -> bool
        ensures { result ≡ is_sooner self other }
    {
        self.moment < other.moment || (self.moment == other.moment && self.process < other.process)
    }
}

/// The due moments of processes. A contract sees of each process, from 0 on, the moment at which it is due, if it is.
#[derive(Drop)]
pub struct Moments {
    /// who is due, the soonest first
    sorted: VecDeque<u16>,
    /// the moment of each process
    moments: Vec<Option<u64>>,
}

impl Model for Moments {
    ghost use Rattle.std.specs.Prelude.{ℕ, Option, List};
    ghost use Rattle.std.specs.Prelude.{◌≤◌, length};
    ghost use Rattle.std.specs.VecDeque.{deque_capacity};
    ghost use Rattle.pfc_sorted.specs.Sorted.{AreSorted};
    ghost use Rattle.pfc_moments.specs.Sorted.{comes_first};

    ghost Value = { List (Option ℕ) };

    ghost view = { λ m. m.moments.items };

    ghost invariant = { λ m. AreSorted comes_first m.sorted.items m.moments.items
        × (length m.moments.items ≤ deque_capacity m.sorted) × (length m.moments.items ≤ 1024) };
}

impl Moments {
    /// Room for so many processes, of which none is due. Its only refusal is want of memory; no other call takes
    /// memory.
    pub fn new(alloc: Global, processes: u32) -> Result<Moments, Memory>
        requires { processes ≤ 1024 }
        ensures { IfOk result (λ m. m ≡ replicate processes None) }
    {
        let sorted = VecDeque::with_capacity(alloc, processes as usize)?;
        let mut moments = Vec::with_capacity(alloc, processes as usize)?;
        for _p in 0..processes {
            moments.push(None)?;
        }
        Ok(Moments { sorted, moments })
    }

    /// Who is due first: at the earliest moment, and at that moment the process of least number.
    pub fn first(&self) -> Option<Due>
        ensures { MatchOption result (IsNobody self.now) (IsFirst self.now) }
    {
        match self.sorted.front() {
            Some(first) => due_of(&self.moments, *first),
            None => None,
        }
    }

    /// A process that is not due is due at this moment from now on.
    pub fn put(&mut self, process: u32, moment: u64)
        requires process { process < length self.old }
        requires free { moment_at self.old process ≡ None }
        ensures { self.new ≡ set self.old process (Some moment) }
    {
        let place = place_of(&self.sorted, &self.moments, Due { moment, process });
        put_in(&mut self.sorted, place, process as u16);
        self.moments[process as usize] = Some(moment);
    }

    /// A process is due no more.
    pub fn remove(&mut self, process: u32)
        requires { process < length self.old }
        ensures { self.new ≡ set self.old process None }
    {
        if let Some(moment) = self.moments[process as usize] {
            let place = place_of_process(&self.sorted, &self.moments, Due { moment, process });
            take_out(&mut self.sorted, place);
            self.moments[process as usize] = None;
        }
    }
}

/// When a process is due, if it is.
fn due_of(moments: &[Option<u64>], process: u16) -> Option<Due>
    ensures { result ≡ option_map (λ moment. due moment process) (moment_at moments.now process) }
{
    match moments.get(process as usize) {
        Some(Some(moment)) => Some(Due {
            moment: *moment,
            process: u32::from(process),
        }),
        _ => None,
    }
}

/// Whether a process is due before this one.
fn comes_before(moments: &[Option<u64>], process: u16, other: Due) -> bool
    ensures { result ≡ passes (λ p moment. is_sooner (due moment p) other) moments.now process }
{
    match due_of(moments, process) {
        Some(found) => found.is_sooner(other),
        None => false,
    }
}

/// Where the process stands that is due.
fn place_of_process(sorted: &VecDeque<u16>, moments: &[Option<u64>], due: Due) -> usize
    requires sorted { AreSorted comes_first sorted.now.items moments.now }
    requires own { moment_at moments.now due.process ≡ Some due.moment }
    ensures { IsPlace sorted.now.items due.process result }
{
    // Whoever is woken is mostly the first.
    match sorted.front() {
        Some(first) if u32::from(*first) == due.process => 0,
        _ => count_before(sorted, moments, due),
    }
}

/// Where one that becomes due belongs: how many come before it.
fn place_of(sorted: &VecDeque<u16>, moments: &[Option<u64>], other: Due) -> usize
    requires { AreSorted comes_first sorted.now.items moments.now }
    ensures { IsParted (passes (λ p moment. is_sooner (due moment p) other) moments.now) sorted.now.items result }
{
    // Where all sleep equally long, whoever begins to sleep is the last.
    match sorted.back() {
        Some(last) if !comes_before(moments, *last, other) => count_before(sorted, moments, other),
        _ => sorted.len(),
    }
}

/// How many come before this one.
fn count_before(sorted: &VecDeque<u16>, moments: &[Option<u64>], other: Due) -> usize
    requires { AreSorted comes_first sorted.now.items moments.now }
    ensures { IsParted (passes (λ p moment. is_sooner (due moment p) other) moments.now) sorted.now.items result }
{
    count_passing(sorted, |p| comes_before(moments, *p, other))
}
