//! The operands of a process.
ghost use Rattle.std.specs.Prelude.{◌≡◌, ◌≤◌, ◌<◌, ◌-◌, ◌^◌, max, pos, [], ◌∷◌, length, take, drop, set, reverse, IfOk, OnOk, OnErr};
ghost use Rattle.pfc_stacks.specs.Operands.{Held};
ghost use Rattle.pfc_stacks.specs.Stacks.{operand};

use pfc_base::Memory;
use std::alloc::Global;
use std::marker::Model;

/// Operands, with room for so many. Contracts see them top first.
#[derive(Drop)]
pub(crate) struct Operands {
    items: Vec<i64>,
    room: u32,
}

impl Model for Operands {
    ghost use Rattle.std.specs.Prelude.{◌≤◌, length, reverse, vec_capacity};
    ghost use Rattle.pfc_stacks.specs.Operands.{Held};

    ghost Value = { Held };

    ghost view = { λ o. record { words = reverse o.items.items; room = o.room } };

    ghost invariant = { λ o. (length o.items.items ≤ o.room) × (o.room ≤ vec_capacity o.items) };
}

/// So many operands, as a number of 32 bits.
fn room_for(n: usize) -> Result<u32, Memory>
    ensures { IfOk result (λ room. room ≡ n) }
{
    if n < 4_294_967_296 {
        Ok(n as u32)
    } else {
        Err(Memory)
    }
}

impl Operands {
    /// None, with room for none.
    pub(crate) fn none(alloc: Global) -> Operands
        ensures { result ≡ record { words = []; room = 0 } }
    {
        Operands {
            items: Vec::new(alloc),
            room: 0,
        }
    }

    /// None, with room for so many. There is no memory for 2^32.
    pub(crate) fn with_room(alloc: Global, n: usize) -> Result<Operands, Memory>
        ensures { IfOk result (λ held. held ≡ record { words = []; room = n }) }
    {
        let room = room_for(n)?;
        let items = Vec::with_capacity(alloc, n)?;
        Ok(Operands { items, room })
    }

    /// How many there are.
    pub(crate) fn len(&self) -> usize
        ensures count { result ≡ length self.now.words }
        ensures few { result < 2 ^ 32 }
    {
        let _room = self.room;
        self.items.len()
    }

    /// The operand at a depth, the top at 0; 0 where there is none.
    pub(crate) fn at(&self, k: usize) -> i64
        ensures { result ≡ operand self.now.words k }
    {
        let n = self.items.len();
        if k < n { self.items[n - 1 - k] } else { 0 }
    }

    /// The operand at a depth, the top at 0, which is there.
    pub(crate) fn held(&self, k: usize) -> i64
        requires { k < length self.now.words }
        ensures { result ≡ operand self.now.words k }
    {
        self.items[self.items.len() - 1 - k]
    }

    /// The last so many, the deepest first.
    pub(crate) fn last(&self, n: usize) -> &[i64]
        requires { n ≤ length self.now.words }
        ensures words { result.now ≡ reverse (take n self.now.words) }
        ensures count { length result.now ≡ n }
    {
        let from = self.items.len() - n;
        &self.items[from..]
    }

    /// Writes the operand at a depth, where there is one.
    pub(crate) fn set(&mut self, k: usize, v: i64)
        ensures { self.new ≡ record self.old { words = set self.old.words k v } }
    {
        let n = self.items.len();
        if k < n {
            self.items[n - 1 - k] = v;
        }
    }

    pub(crate) fn push(&mut self, v: i64)
        requires { length self.old.words < self.old.room }
        ensures { self.new ≡ record self.old { words = v ∷ self.old.words } }
    {
        self.items.push_reserved(v);
    }

    /// Pops all but the deepest so many.
    pub(crate) fn keep(&mut self, n: usize)
        ensures { self.new ≡ record self.old { words = drop (length self.old.words - n) self.old.words } }
    {
        self.items.truncate(n);
    }

    /// Pops so many, or all where there are fewer.
    pub(crate) fn cut(&mut self, n: usize)
        ensures cut { self.new ≡ record self.old { words = drop n self.old.words } }
        ensures few { length self.old.words ≤ self.old.room }
    {
        let kept = self.items.len().saturating_sub(n);
        self.items.truncate(kept);
    }

    /// Pops so many, and pushes a word.
    pub(crate) fn replace(&mut self, n: usize, v: i64)
        requires room { n ≡ 0 → length self.old.words < self.old.room }
        requires held { n ≤ length self.old.words }
        ensures { self.new ≡ record self.old { words = v ∷ drop n self.old.words } }
    {
        self.cut(n);
        self.push(v);
    }

    /// Takes room for so many in all, where there is less. There is no memory for 2^32.
    pub(crate) fn make_room(&mut self, n: usize) -> Result<(), Memory>
        ensures ok { OnOk result (self.new ≡ record self.old { room = max self.old.room n }) }
        ensures err { OnErr result (self.new ≡ self.old) }
    {
        let room = room_for(n)?;
        if self.room < room {
            self.items.reserve(n - self.items.len())?;
            self.room = room;
        }
        Ok(())
    }
}
