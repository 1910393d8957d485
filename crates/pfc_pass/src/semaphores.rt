//! Semaphores.
ghost use Rattle.std.specs.Prelude.{◌≡◌, ◌<◌, ◌≤◌, ◌==◌, not, true, Some, length, replicate, IfOk, slice_index_or, slice_set};
ghost use Rattle.pfc_world.specs.Goings.{ActsAfter, GoesWhere};
ghost use Rattle.pfc_world.specs.Semaphores.{counted, count_of, most_count, waited};
ghost use Rattle.pfc_world.specs.Tickets.{IsNew};
ghost use Rattle.pfc_pass.specs.Counts.{IsInitial, IsSignal};

use pfc_base::{Memory, RunFault};
use pfc_world::{After, Running, Why, World};
use std::alloc::Global;
use std::marker::Model;

/// The greatest count of a semaphore.
const MOST: u32 = 2_147_483_647;

/// The counts of a program's semaphores, which are numbered from 0. A contract sees the list of them; each is from 0 to
/// 2147483647.
#[derive(Drop)]
pub struct Semaphores {
    counts: Vec<u32>,
}

impl Model for Semaphores {
    ghost use Rattle.std.specs.Prelude.{ℕ, List, ◌≤◌, All};
    ghost use Rattle.pfc_world.specs.Semaphores.{most_count};

    ghost Value = { List ℕ };

    ghost view = { λ s. s.counts.items };

    ghost invariant = { λ s. All (λ n. n ≤ most_count) s.counts.items };
}

impl Semaphores {
    /// This many semaphores, all counts 0. Its only refusal is want of memory.
    pub fn new(alloc: Global, n: u32) -> Result<Semaphores, Memory>
        ensures { IfOk result (λ sems. sems ≡ replicate n 0) }
    {
        let counts = Vec::from_elem(alloc, 0, n as usize)?;
        Ok(Semaphores { counts })
    }

    /// Whether there is a semaphore of this number.
    pub fn has(&self, s: u32) -> bool
        ensures { result ≡ true → s < length self.now }
    {
        (s as usize) < self.counts.len()
    }

    fn count(&self, s: u32) -> u32
        requires { s < length self.now }
        ensures count { result ≡ slice_index_or self.now s 0 }
        ensures bound { result ≤ most_count }
    {
        self.counts[s as usize]
    }

    fn set(&mut self, s: u32, count: u32)
        requires known { s < length self.old }
        requires bound { count ≤ most_count }
        ensures { self.new ≡ slice_set self.old s count }
    {
        self.counts[s as usize] = count;
    }
}

/// `initial(s, n)`: the count becomes n. It is the fault of a negative semaphore, and nothing changes, where n is
/// below 0.
pub fn sem_initial(sems: &mut Semaphores, s: u32, n: i32) -> Result<(), RunFault>
    requires { s < length sems.old }
    ensures { IsInitial sems.old s n result sems.new }
{
    if n < 0 {
        return Err(RunFault::Negative);
    }
    sems.set(s, n.unsigned_abs());
    Ok(())
}

/// `wait(s)` by the process that acts: it goes on and a positive count falls by 1; it waits exactly where the count
/// is 0.
pub fn sem_wait(world: &mut World, sems: &mut Semaphores, r: Running, s: u32) -> After
    requires acts { world.old.acting ≡ Some r.number }
    requires fresh { IsNew world.old.rows world.old.done }
    requires known { s < length sems.old }
    ensures table { counted world.new sems.new ≡ waited (counted world.old sems.old) r.number s }
    ensures answer { GoesWhere (not (count_of (counted world.old sems.old) s == 0)) r.number result }
    ensures acting { ActsAfter result world.new.acting }
{
    let count = sems.count(s);
    if count == 0 {
        world.block(r, Why::Semaphore(s));
        return After::Waits;
    }
    sems.set(s, count - 1);
    After::Goes(r)
}

/// `signal(s)`: the process that has waited longest is ready and the count stays; its number is the answer. Without a
/// waiter the count rises by 1. It is the fault of a count too large, and nothing changes, exactly where nobody waits
/// and the count is 2147483647.
pub fn sem_signal(world: &mut World, sems: &mut Semaphores, s: u32) -> Result<Option<u32>, RunFault>
    requires { s < length sems.old }
    ensures table { IsSignal (counted world.old sems.old) s result (counted world.new sems.new) }
    ensures acting { world.new.acting ≡ world.old.acting }
{
    if let Some(q) = world.first_at(Why::Semaphore(s)) {
        world.wake(q);
        return Ok(Some(q));
    }
    let count = sems.count(s);
    if count == MOST {
        return Err(RunFault::Count);
    }
    sems.set(s, count + 1);
    Ok(None)
}
