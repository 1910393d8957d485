//! Where a number stands first in a list.
ghost use Rattle.std.specs.Prelude.{◌≡◌, ◌+◌, ◌<◌, ◌==◌, ℕ, None, length, get_or, IfOk, OnOk};
ghost use Rattle.std.specs.List.{position_from};
ghost use Rattle.pfc_program.specs.FirstPlaces.{noted};

use pfc_base::Memory;
use std::alloc::Global;

/// The first place of each number in a list of numbers, by the number.
#[derive(Drop)]
pub struct Index {
    firsts: Vec<Option<u32>>,
}

impl Index {
    /// The places in a list. More than 2^32 numbers are want of memory.
    pub fn new(alloc: Global, keys: &[u32]) -> Result<Index, Memory>
        ensures { IfOk result (λ x. (i : ℕ) → get_or x.firsts.items i None ≡ position_from (λ k. k == i) 0 keys.now) }
    {
        let mut firsts = Vec::new(alloc);
        let mut n = 0;
        for key in keys {
            note(&mut firsts, *key, n)?;
            n = further(n)?;
        }
        Ok(Index { firsts })
    }

    /// The first place of a number, None exactly where it does not stand in the list.
    pub fn at(&self, i: u32) -> Option<u32>
        ensures { result ≡ get_or self.now.firsts.items i None }
    {
        match self.firsts.get(i as usize) {
            Some(place) => *place,
            None => None,
        }
    }
}

/// One more. Its only refusal is a number of more than 32 bits.
fn further(n: u32) -> Result<u32, Memory>
    ensures { IfOk result (λ m. m ≡ n + 1) }
{
    match n.checked_add(1) {
        Some(m) => Ok(m),
        None => Err(Memory),
    }
}

/// Makes room for what is known of a number.
fn reach(firsts: &mut Vec<Option<u32>>, key: u32) -> Result<(), Memory>
    ensures same { OnOk result ((i : ℕ) → get_or firsts.new.items i None ≡ get_or firsts.old.items i None) }
    ensures room { OnOk result (key < length firsts.new.items) }
{
    for k in firsts.len()..key as usize + 1 {
        firsts.push(None)?;
    }
    Ok(())
}

/// Notes that a number stands at the place n, behind all others.
pub(crate) fn note(firsts: &mut Vec<Option<u32>>, key: u32, n: u32) -> Result<(), Memory>
    ensures { OnOk result ((i : ℕ) → get_or firsts.new.items i None ≡ noted key n i (get_or firsts.old.items i None)) }
{
    reach(firsts, key)?;
    let place = &mut firsts[key as usize];
    *place = (*place).or(Some(n));
    Ok(())
}
