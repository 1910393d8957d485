//! Whom an action makes ready.
ghost use Rattle.std.specs.Prelude.{◌≡◌, ◌+◌, ◌<◌, ◌≤◌, [], not, ◌&&◌, length, map, vec_len, IfOk};
ghost use Rattle.std.specs.Vec.{vec_capacity};
ghost use Rattle.pfc_state.specs.Stands.{is_ready as is_ready_in};
ghost use Rattle.pfc_world.specs.Tables.{at};
ghost use Rattle.pfc_events.specs.Wakes.{woken_by};

use pfc_base::Memory;
use pfc_hb::Numbers;
use pfc_world::{State, World};
use std::alloc::Global;

/// Who was ready before an action, with room for the numbers of those that it makes ready.
#[derive(Drop)]
pub(crate) struct Standings {
    pub(crate) ready: Vec<bool>,
    woken: Vec<u32>,
    ghost nobody: { woken.items ≡ [] },
    ghost room: { vec_len ready ≤ vec_capacity woken },
}

/// Whether a process is ready.
fn is_ready(world: &World, p: u32) -> bool
    requires { p < length world.now.rows }
    ensures { result ≡ is_ready_in (at world.now.rows p) }
{
    match world.state(p) {
        State::Ready => true,
        State::Idle => false,
        State::Created => false,
        State::Waiting(_) => false,
        State::Done => false,
    }
}

/// Whether a process is ready that was not, where this says whether it was.
fn is_ready_now(was: bool, world: &World, p: u32) -> bool
    requires { p < length world.now.rows }
    ensures { result ≡ (not was && is_ready_in (at world.now.rows p)) }
{
    !was && is_ready(world, p)
}

/// Which processes are ready, by their numbers. The only refusal is want of memory.
fn ready_in(alloc: Global, world: &World) -> Result<Vec<bool>, Memory>
    ensures { IfOk result (λ ready. ready.items ≡ map is_ready_in world.now.rows) }
{
    let mut ready = Vec::new(alloc);
    for p in 0..world.processes() {
        ready.push(is_ready(world, p))?;
    }
    Ok(ready)
}

impl Standings {
    /// Who is ready, before an action. The only refusal is want of memory.
    pub(crate) fn before(alloc: Global, world: &World) -> Result<Standings, Memory>
        ensures { IfOk result (λ s. s.ready.items ≡ map is_ready_in world.now.rows) }
    {
        let ready = ready_in(alloc, world)?;
        let mut woken = Vec::new(alloc);
        woken.reserve(ready.len())?;
        Ok(Standings { ready, woken })
    }

    /// Whom the action made ready, behind which the table is this, in the order of their numbers. It takes no memory.
    pub(crate) fn woken(self, world: &World) -> Numbers
        ensures { result ≡ woken_by 0 self.ready.items world.now.rows }
    {
        let Standings { ready, mut woken } = self;
        let count = ready.len().min(world.processes() as usize);
        for q in 0..count {
            if is_ready_now(ready[q], world, q as u32) {
                woken.push(q as u32).unwrap();
            }
        }
        Numbers::from_vec(woken)
    }
}
