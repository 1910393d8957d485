//! What the table keeps beside its rows, so that nobody is looked for among all processes.
ghost use Rattle.std.specs.Prelude.{◌≡◌, ◌+◌, ◌-◌, ◌<◌, ◌≤◌, ◌∷◌, true, false, [], length, set, replicate, IfOk};
ghost use Rattle.pfc_state.specs.Stands.{Is_idle, Is_ready, Waits, may_end};
ghost use Rattle.pfc_state.specs.Waits.{due_of_wait};
ghost use Rattle.pfc_world.specs.Delays.{delay_of_wait};
ghost use Rattle.pfc_world.specs.Indexes.{IsIndexed, Admits, BeginsWait, IsListed, EndsWait};

use crate::Why;
use crate::lists::Spread;
use pfc_base::Memory;
use pfc_links::Links;
use pfc_lists::Numbers;
use pfc_moments::Moments;
use pfc_ranks::{Delay, Ranks};
use std::alloc::Global;

/// How waits are spread over lists; who is ready; who waits in which list; who is due, and when; who is delayed at a
/// condition, by ranks; how many processes are unfinished, main included; how many of these are created and wait to be
/// started; and how many wait in a select with an open `terminate`.
#[derive(Drop)]
pub(crate) struct Index {
    pub(crate) spread: Spread,
    pub(crate) ready: Numbers,
    pub(crate) waits: Links,
    pub(crate) dues: Moments,
    pub(crate) ranks: Ranks,
    pub(crate) unfinished: u32,
    pub(crate) created: u32,
    pub(crate) ending: u32,
}

impl Index {
    /// That of n processes before the first action, with so many lists for each cause of waits: main is ready, and the
    /// others are idle.
    pub(crate) fn new(alloc: Global, n: u32, objects: u32) -> Result<Index, Memory>
        requires some { 0 < n }
        requires few { n ≤ 1024 }
        ensures { IfOk result (λ index. IsIndexed (Is_ready ∷ replicate (n - 1) Is_idle) index) }
    {
        let spread = Spread::new(n, objects);
        let mut ready = Numbers::new(alloc, n)?;
        ready.put(0, true);
        Ok(Index {
            spread,
            ready,
            waits: Links::new(alloc, n, spread.lists())?,
            dues: Moments::new(alloc, n)?,
            ranks: Ranks::new(alloc, n)?,
            unfinished: 1,
            created: 0,
            ending: 0,
        })
    }

    /// A process that acted waits from now on.
    pub(crate) fn begin_wait(&mut self, p: u32, why: Why, ticket: u64)
        requires { Admits self.old p ticket }
        ensures { BeginsWait self.old self.new p why ticket }
    {
        self.ready.put(p, false);
        self.waits.append(p, self.spread.list_of(why), ticket);
        if let Some(moment) = due_of(why) {
            self.dues.put(p, moment);
        }
        if let Some(delay) = delay_of(why, ticket) {
            self.ranks.put(p, delay);
        }
        if may_end(why) {
            self.ending += 1;
        }
    }

    /// The wait of a process is over, and it is ready. It is told whether the wait had an open `terminate`.
    pub(crate) fn wake(&mut self, p: u32, ends: bool)
        requires { IsListed self.old p ends }
        ensures wait { EndsWait self.old self.new p ends }
        ensures ready { self.new.ready ≡ set self.old.ready p true }
        ensures unfinished { self.new.unfinished ≡ self.old.unfinished }
    {
        self.end_wait(p, ends);
        self.ready.put(p, true);
    }

    /// A process finishes where it waits. It is told whether the wait had an open `terminate`.
    pub(crate) fn end(&mut self, p: u32, ends: bool)
        requires { IsListed self.old p ends }
        ensures wait { EndsWait self.old self.new p ends }
        ensures ready { self.new.ready ≡ self.old.ready }
        ensures unfinished { self.new.unfinished + 1 ≡ self.old.unfinished }
    {
        self.end_wait(p, ends);
        self.unfinished -= 1;
    }

    fn end_wait(&mut self, p: u32, ends: bool)
        requires { IsListed self.old p ends }
        ensures wait { EndsWait self.old self.new p ends }
        ensures ready { self.new.ready ≡ self.old.ready }
        ensures unfinished { self.new.unfinished ≡ self.old.unfinished }
    {
        self.waits.remove(p);
        self.dues.remove(p);
        self.ranks.remove(p);
        if ends {
            self.ending -= 1;
        }
    }
}

/// The moment at which a wait ends by itself.
fn due_of(why: Why) -> Option<u64>
    ensures { result ≡ due_of_wait why }
{
    match why {
        Why::Sleep(moment) => Some(moment),
        Why::Select { due, .. } => due,
        _ => None,
    }
}

/// The delay of a wait at a condition, with its rank and this ticket.
fn delay_of(why: Why, ticket: u64) -> Option<Delay>
    ensures { result ≡ delay_of_wait why ticket }
{
    match why {
        Why::Condition { number, rank } => Some(Delay {
            object: number,
            rank,
            ticket,
        }),
        _ => None,
    }
}

/// Whether a wait is that of a select with an open `terminate`.
fn may_end(why: Why) -> bool
    ensures { result ≡ may_end (Waits why 0 []) }
{
    match why {
        Why::Select { terminate, .. } => terminate,
        _ => false,
    }
}
