//! Resources: who holds each of them.
ghost use Rattle.std.specs.Prelude.{◌≡◌, ◌<◌, length, not, is_some, true, None, Some, IfOk, replicate, slice_set};
ghost use Rattle.pfc_world.specs.Goings.{ActsAfter, GoesWhere};
ghost use Rattle.pfc_world.specs.Holders.{held_in, holder_in};
ghost use Rattle.pfc_world.specs.Partners.{next_entrant};
ghost use Rattle.pfc_world.specs.Resources.{resource_entered, given_up};
ghost use Rattle.pfc_world.specs.Tickets.{IsNew};

use pfc_base::Memory;
use pfc_world::{After, Running, Why, World};
use std::alloc::Global;
use std::marker::Model;

/// The resources of a program, which are numbered from 0: the process that holds each, if any. A contract sees the list
/// of them.
#[derive(Drop)]
pub struct Resources {
    holders: Vec<Option<u32>>,
}

impl Model for Resources {
    ghost use Rattle.std.specs.Prelude.{ℕ, List, Option};

    ghost Value = { List (Option ℕ) };

    ghost view = { λ r. r.holders.items };
}

impl Resources {
    /// This many resources, all free. Its only refusal is want of memory.
    pub fn new(alloc: Global, n: u32) -> Result<Resources, Memory>
        ensures { IfOk result (λ res. res ≡ replicate n None) }
    {
        let holders = Vec::from_elem(alloc, None, n as usize)?;
        Ok(Resources { holders })
    }

    /// Whether there is a resource of this number.
    pub fn has(&self, g: u32) -> bool
        ensures { result ≡ true → g < length self.now }
    {
        (g as usize) < self.holders.len()
    }

    /// The process that holds the resource; None where it is free.
    pub fn holder(&self, g: u32) -> Option<u32>
        requires { g < length self.now }
        ensures { result ≡ holder_in self.now g }
    {
        self.holders[g as usize]
    }

    /// The resource has this holder, or is free.
    pub(crate) fn hold(&mut self, g: u32, holder: Option<u32>)
        requires { g < length self.old }
        ensures { self.new ≡ slice_set self.old g holder }
    {
        self.holders[g as usize] = holder;
    }
}

/// A call from outside by the process that acts: it has the resource and goes on where it is free, and waits as an
/// entrant exactly where it is held.
pub fn enter(world: &mut World, res: &mut Resources, r: Running, g: u32) -> After
    requires acts { world.old.acting ≡ Some r.number }
    requires fresh { IsNew world.old.rows world.old.done }
    requires known { g < length res.old }
    ensures table { held_in world.new res.new ≡ resource_entered (held_in world.old res.old) r.number g }
    ensures answer { GoesWhere (not (is_some (holder_in res.old g))) r.number result }
    ensures acting { ActsAfter result world.new.acting }
{
    if res.holder(g).is_some() {
        world.block(r, Why::Entrant(g));
        return After::Waits;
    }
    res.hold(g, Some(r.number()));
    After::Goes(r)
}

/// A scan that finds no further barred process, behind the return of a call from outside: the resource goes to the first
/// entrant, who is ready, or else is free. The next holder is the answer; None exactly where no entrant waits.
pub fn leave(world: &mut World, res: &mut Resources, g: u32) -> Option<u32>
    requires known { g < length res.old }
    requires held { is_some (holder_in res.old g) ≡ true }
    ensures table { held_in world.new res.new ≡ given_up (held_in world.old res.old) g }
    ensures next { result ≡ next_entrant world.old.rows g }
    ensures acting { world.new.acting ≡ world.old.acting }
{
    give_up(world, res, g)
}

/// The resource goes to the first entrant, or else is free.
pub(crate) fn give_up(world: &mut World, res: &mut Resources, g: u32) -> Option<u32>
    requires { g < length res.old }
    ensures table { held_in world.new res.new ≡ given_up (held_in world.old res.old) g }
    ensures next { result ≡ next_entrant world.old.rows g }
    ensures acting { world.new.acting ≡ world.old.acting }
    ensures fresh { IsNew world.old.rows world.old.done → IsNew world.new.rows world.new.done }
{
    let next = world.first_at(Why::Entrant(g));
    if let Some(q) = next {
        world.wake(q);
    }
    res.hold(g, next);
    next
}
