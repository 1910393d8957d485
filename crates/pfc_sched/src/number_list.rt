//! The list of a script's numbers.
ghost use Rattle.std.specs.Prelude.{◌≡◌, ◌∷◌, ◌++◌, [], ◌<◌, ◌≤◌, ◌^◌, length, OnOk, OnErr, slice_index, option_copied, slice_get, ◌==◌, Some};

use pfc_base::Memory;
use std::alloc::Global;
use std::marker::Model;

/// The numbers of a script, each of at most 32 bits. A contract sees the list of them. It holds fewer than 2^32.
#[derive(Drop)]
pub struct Picks {
    numbers: Vec<u32>,
}

impl Model for Picks {
    ghost use Rattle.std.specs.Prelude.{ℕ, List, ◌<◌, ◌^◌, vec_len};

    ghost Value = { List ℕ };

    ghost view = { λ p. p.numbers.items };

    ghost invariant = { λ p. vec_len p.numbers < 2 ^ 32 };
}

impl Picks {
    /// An empty list.
    pub fn new(alloc: Global) -> Picks
        ensures { result ≡ [] }
    {
        Picks {
            numbers: Vec::new(alloc),
        }
    }

    /// Adds a number at the end. Where memory is refused, also for a list of 2^32 - 1 numbers, the list stays.
    pub fn push(&mut self, number: u32) -> Result<(), Memory>
        ensures ok { OnOk result (self.new ≡ self.old ++ number ∷ []) }
        ensures memory { OnErr result (self.new ≡ self.old) }
    {
        if self.numbers.len() >= u32::MAX as usize {
            return Err(Memory);
        }
        self.numbers.push(number)?;
        Ok(())
    }

    /// How many numbers the list holds.
    pub fn len(&self) -> u32
        ensures { result ≡ length self.now }
    {
        self.numbers.len() as u32
    }

    /// Whether the list holds no number.
    pub fn is_empty(&self) -> bool
        ensures { result ≡ (length self.now == 0) }
    {
        self.numbers.is_empty()
    }

    /// The number at a place, counted from 0.
    pub fn at(&self, i: u32) -> &u32
        requires { i < length self.now }
        ensures { slice_get self.now i ≡ Some result.now }
    {
        &self.numbers[i as usize]
    }

    /// The number at a place, counted from 0; None past the end.
    pub(crate) fn get(&self, i: u64) -> Option<u32>
        ensures { result ≡ slice_get self.now i }
    {
        self.numbers.get(i as usize).copied()
    }
}
