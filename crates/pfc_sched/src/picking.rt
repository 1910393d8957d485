//! The pick of the process that acts next.
ghost use Rattle.std.specs.Prelude.{◌≡◌, ◌<◌, ◌≤◌, length};
ghost use Rattle.pfc_sched.specs.Picks.{Picking, first_picking, picked, after_pick, chosen, after_choice, item_of, named};

use crate::number_list::Picks;
use crate::words::{coming_word, next_word, words_of};
use pfc_world::{State, World};
use rand_pcg::Lcg64Xsh32;
use std::marker::Model;

/// The number of the stream that picks and choices draw from.
const STREAM: u64 = 1;

/// How the next process is picked.
#[derive(Drop)]
pub enum Policy {
    /// By the words of the seed: any ready process may come next.
    Fair { seed: u64 },
    /// The process picked last goes on while it is ready.
    Unfair,
    /// By a list of process numbers.
    Script(Picks),
}

/// What a pick gives.
#[derive(Clone, Copy, Debug, PartialEq, Eq)]
pub enum Pick {
    /// This process acts next. It is ready.
    Process(u32),
    /// No process is ready.
    Nobody,
    /// The script names this process, and it is not ready.
    NotReady(u32),
    /// The script names this number, and no process has it.
    NoProcess(u32),
    /// The script has no further number, though some process is ready.
    ScriptEnd,
}

#[derive(Drop)]
enum Mode {
    Fair { words: Lcg64Xsh32 },
    Unfair { last: u32 },
    Script { picks: Picks, item: u64 },
}

/// Who picks: the policy, and how far it has come. A contract sees the generator, the process picked last, or the list
/// and the number of the item taken last.
#[derive(Drop)]
pub struct Picker {
    mode: Mode,
}

impl Model for Picker {
    ghost use Rattle.pfc_sched.specs.Picks.{Picking};
    ghost use Rattle.pfc_sched.specs.Modes.{picking_of, IsModest};

    ghost Value = { Picking };

    ghost view = { λ p. picking_of p.mode };

    ghost invariant = { λ p. IsModest p.mode };
}

impl Picker {
    /// Who picks by this policy, before the first pick.
    pub fn new(policy: Policy) -> Picker
        ensures { result ≡ first_picking policy }
    {
        let mode = match policy {
            Policy::Fair { seed } => Mode::Fair {
                words: words_of(seed, STREAM),
            },
            Policy::Unfair => Mode::Unfair { last: 0 },
            Policy::Script(picks) => Mode::Script { picks, item: 0 },
        };
        Picker { mode }
    }

    /// The pick over this table. Where no process is ready, no word and no item is taken.
    pub fn pick(&mut self, world: &World) -> Pick
        ensures pick { result ≡ picked self.old world.now.rows }
        ensures after { self.new ≡ after_pick self.old world.now.rows }
    {
        let ready = world.ready_count();
        if ready == 0 {
            return Pick::Nobody;
        }
        match &mut self.mode {
            Mode::Fair { words } => Pick::Process(world.ready_at(next_word(words) % ready)),
            Mode::Unfair { last } => {
                *last = world.ready_from(*last);
                Pick::Process(*last)
            }
            Mode::Script { picks, item } => {
                let next = picks.get(*item);
                let end = u64::from(picks.len()) + 1;
                *item = (*item + 1).min(end);
                pick_named(world, next)
            }
        }
    }

    /// The number that the next choice among `m` would give: in fair mode the next word modulo `m`, else 0. Nothing is drawn.
    pub fn next_choice(&self, m: u32) -> u32
        requires { 0 < m }
        ensures { result ≡ chosen self.now m }
    {
        match &self.mode {
            Mode::Fair { words } => coming_word(words) % m,
            Mode::Unfair { .. } | Mode::Script { .. } => 0,
        }
    }

    /// A number below `m`: in fair mode the next word modulo `m`, else 0.
    pub fn choose(&mut self, m: u32) -> u32
        requires { 0 < m }
        ensures choice { result ≡ chosen self.old m }
        ensures after { self.new ≡ after_choice self.old }
    {
        match &mut self.mode {
            Mode::Fair { words } => next_word(words) % m,
            Mode::Unfair { .. } | Mode::Script { .. } => 0,
        }
    }

    /// The number, from 1, of the script's item that was taken last, and one more than its items after its end;
    /// 0 before the first, and without a script.
    pub fn item(&self) -> u64
        ensures { result ≡ item_of self.now }
    {
        match &self.mode {
            Mode::Script { item, .. } => *item,
            Mode::Fair { .. } | Mode::Unfair { .. } => 0,
        }
    }
}

fn pick_named(world: &World, next: Option<u32>) -> Pick
    ensures { result ≡ named next world.now.rows }
{
    let Some(p) = next else {
        return Pick::ScriptEnd;
    };
    if p >= world.processes() {
        return Pick::NoProcess(p);
    }
    match world.state(p) {
        State::Ready => Pick::Process(p),
        _ => Pick::NotReady(p),
    }
}
