//! Monitors: who holds each of them.
ghost use Rattle.std.specs.Prelude.{◌≡◌, ◌<◌, length, not, is_some, true, None, Some, IfOk, IfSome, All, replicate, slice_index, slice_set};
ghost use Rattle.pfc_state.specs.Stands.{IsWaiting};
ghost use Rattle.pfc_world.specs.Goings.{ActsAfter, GoesWhere};
ghost use Rattle.pfc_world.specs.Holders.{held_in, holder_in};
ghost use Rattle.pfc_world.specs.Monitors.{entered, handed_over};
ghost use Rattle.pfc_world.specs.Partners.{next_holder};
ghost use Rattle.pfc_world.specs.Tables.{at};
ghost use Rattle.pfc_world.specs.Tickets.{IsNew};

use pfc_base::Memory;
use pfc_world::{After, Running, Why, World};
use std::alloc::Global;
use std::marker::Model;

/// The monitors of a program and its conditions, both numbered from 0: the process that holds each monitor, if any, and
/// the monitor of each condition. A contract sees the two lists.
#[derive(Drop)]
pub struct Monitors {
    holders: Vec<Option<u32>>,
    owners: Vec<u32>,
}

impl Model for Monitors {
    ghost use Rattle.std.specs.Prelude.{◌<◌, length, All};
    ghost use Rattle.pfc_monitor.specs.Guards.{Guards};

    ghost Value = { Guards };

    ghost view = { λ m. record { holders = m.holders.items; owners = m.owners.items } };

    ghost invariant = { λ m. All (λ n. n < length m.holders.items) m.owners.items };
}

impl Monitors {
    /// This many monitors, all free, and the conditions, each given by the number of its monitor. Its only refusal is
    /// want of memory.
    pub fn new(alloc: Global, n: u32, conditions: &[u32]) -> Result<Monitors, Memory>
        requires { All (λ m. m < n) conditions.now }
        ensures { IfOk result (λ mons. mons ≡ record { holders = replicate n None; owners = conditions.now }) }
    {
        let holders = Vec::from_elem(alloc, None, n as usize)?;
        let owners = Vec::from_slice(alloc, conditions)?;
        Ok(Monitors { holders, owners })
    }

    /// Whether there is a monitor of this number.
    pub fn has(&self, m: u32) -> bool
        ensures { result ≡ true → m < length self.now.holders }
    {
        (m as usize) < self.holders.len()
    }

    /// Whether there is a condition of this number.
    pub fn has_condition(&self, c: u32) -> bool
        ensures { result ≡ true → c < length self.now.owners }
    {
        (c as usize) < self.owners.len()
    }

    /// The process that holds the monitor; None where it is free.
    pub fn holder(&self, m: u32) -> Option<u32>
        requires { m < length self.now.holders }
        ensures { result ≡ holder_in self.now.holders m }
    {
        self.holders[m as usize]
    }

    /// The monitor of the condition.
    pub fn monitor_of(&self, c: u32) -> u32
        requires { c < length self.now.owners }
        ensures monitor { result ≡ slice_index self.now.owners c }
        ensures within { result < length self.now.holders }
    {
        self.owners[c as usize]
    }

    /// The monitor has this holder, or is free.
    pub(crate) fn hold(&mut self, m: u32, holder: Option<u32>)
        requires { m < length self.old.holders }
        ensures { self.new ≡ record { holders = slice_set self.old.holders m holder; owners = self.old.owners } }
    {
        self.holders[m as usize] = holder;
    }
}

/// A call from outside by the process that acts: it has the monitor and goes on where it is free, and waits as an
/// entrant exactly where it is held.
pub fn enter(world: &mut World, mons: &mut Monitors, r: Running, m: u32) -> After
    requires acts { world.old.acting ≡ Some r.number }
    requires fresh { IsNew world.old.rows world.old.done }
    requires known { m < length mons.old.holders }
    ensures table { held_in world.new mons.new.holders ≡ entered (held_in world.old mons.old.holders) r.number m }
    ensures conditions { mons.new.owners ≡ mons.old.owners }
    ensures answer { GoesWhere (not (is_some (holder_in mons.old.holders m))) r.number result }
    ensures acting { ActsAfter result world.new.acting }
{
    if mons.holder(m).is_some() {
        world.block(r, Why::Enter(m));
        return After::Waits;
    }
    mons.hold(m, Some(r.number()));
    After::Goes(r)
}

/// The return of a call from outside by the holder p: the monitor is handed over to the latest resumer, who is ready,
/// or else to the first entrant, or else is free. The next holder is the answer; None exactly where neither a resumer
/// nor an entrant waits.
pub fn leave(world: &mut World, mons: &mut Monitors, p: u32, m: u32) -> Option<u32>
    requires known { m < length mons.old.holders }
    requires holds { holder_in mons.old.holders m ≡ Some p }
    ensures table { held_in world.new mons.new.holders ≡ handed_over (held_in world.old mons.old.holders) m }
    ensures conditions { mons.new.owners ≡ mons.old.owners }
    ensures next { result ≡ next_holder world.old.rows m }
    ensures acting { world.new.acting ≡ world.old.acting }
{
    hand_over(world, mons, m)
}

/// The monitor goes to the latest resumer, or else to the first entrant, or else is free.
pub(crate) fn hand_over(world: &mut World, mons: &mut Monitors, m: u32) -> Option<u32>
    requires { m < length mons.old.holders }
    ensures table { held_in world.new mons.new.holders ≡ handed_over (held_in world.old mons.old.holders) m }
    ensures conditions { mons.new.owners ≡ mons.old.owners }
    ensures next { result ≡ next_holder world.old.rows m }
    ensures acting { world.new.acting ≡ world.old.acting }
    ensures fresh { IsNew world.old.rows world.old.done → IsNew world.new.rows world.new.done }
{
    let next = next_holder(world, m);
    if let Some(q) = next {
        world.wake(q);
    }
    mons.hold(m, next);
    next
}

fn next_holder(world: &World, m: u32) -> Option<u32>
    ensures next { result ≡ next_holder world.now.rows m }
    ensures waits { IfSome result (λ q. IsWaiting (at world.now.rows q)) }
{
    match world.last_at(Why::Resumer(m)) {
        Some(resumer) => Some(resumer),
        None => world.first_at(Why::Enter(m)),
    }
}
