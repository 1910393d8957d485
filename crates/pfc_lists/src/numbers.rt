//! Sets of numbers below a bound, as bits.
ghost use Rattle.std.specs.Prelude.{◌≡◌, ◌<◌, ◌≤◌, ◌+◌, ◌*◌, ◌/◌, ℕ, false, length, get_or, set, take, IfOk};
ghost use Rattle.pfc_lists.specs.Bits.{flags, numbers};

use crate::words::{has_bit, is_empty, low_bits, number_of_bit, number_of_lowest, ones, with_bit};
use pfc_base::Memory;
use std::alloc::Global;
use std::marker::Model;

/// A set of numbers below a bound, in words of 64 bits, with the count of its numbers. A contract sees the list of
/// truths that says of each number, from 0 on, whether it is in the set.
#[derive(Drop)]
pub struct Numbers {
    words: Vec<u64>,
    count: u32,
}

impl Model for Numbers {
    ghost use Rattle.std.specs.Prelude.{ℕ, Bool, List, ◌≡◌, ◌≤◌, length};
    ghost use Rattle.pfc_lists.specs.Bits.{flags, numbers};

    ghost Value = { List Bool };

    ghost view = { λ n. flags n.words.items };

    ghost invariant = { λ n. (n.count ≡ length (numbers (flags n.words.items))) × (length n.words.items ≤ 1024) };
}

impl Numbers {
    /// The empty set, with room for the numbers below `size`. Its only refusal is want of memory; no other call
    /// takes memory.
    pub fn new(alloc: Global, size: u32) -> Result<Numbers, Memory>
        requires { size ≤ 65000 }
        ensures empty { IfOk result (λ n. (k : ℕ) → get_or n k false ≡ false) }
        ensures room { IfOk result (λ n. size < length n) }
    {
        let words = size / 64 + 1;
        let mut empty = Vec::with_capacity(alloc, words as usize)?;
        for _i in 0..words {
            empty.push(0)?;
        }
        Ok(Numbers {
            words: empty,
            count: 0,
        })
    }

    /// How many numbers are in the set.
    pub fn count(&self) -> u32
        ensures { result ≡ length (numbers self.now) }
    {
        self.count
    }

    /// Whether a number is in the set.
    pub fn has(&self, number: u32) -> bool
        requires { number < length self.now }
        ensures { result ≡ get_or self.now number false }
    {
        let word = self.words[(number / 64) as usize];
        has_bit(word, number % 64)
    }

    /// A number is in the set from now on, or is not.
    pub fn put(&mut self, number: u32, held: bool)
        requires { number < length self.old }
        ensures { self.new ≡ set self.old number held }
    {
        self.count = self.count + u32::from(held) - u32::from(self.has(number));
        let word = &mut self.words[(number / 64) as usize];
        *word = with_bit(*word, number % 64, held);
    }

    /// The number at a place, counted from 0, among those of the set in order. The first, which is the only one of a set of one, is found without
    /// a count.
    pub fn at(&self, place: u32) -> u32
        requires { place < length (numbers self.now) }
        ensures { result ≡ get_or (numbers self.now) place 0 }
    {
        if place == 0 {
            return self.first();
        }
        self.counted_at(place)
    }

    /// The lowest number.
    fn first(&self) -> u32
        requires { 0 < length (numbers self.now) }
        ensures { result ≡ get_or (numbers self.now) 0 0 }
    {
        for (k, word) in self.words.iter().enumerate() {
            if !is_empty(*word) {
                return number_of_lowest(*word, 64 * k as u32);
            }
        }
        unreachable!()
    }

    /// The number at a place, by the counts of the words before it.
    #[inline(never)]
    fn counted_at(&self, place: u32) -> u32
        requires { place < length (numbers self.now) }
        ensures { result ≡ get_or (numbers self.now) place 0 }
    {
        let mut left = place;
        for (k, word) in self.words.iter().enumerate() {
            let held = ones(*word);
            if left < held {
                return number_of_bit(*word, left, 64 * k as u32);
            }
            left -= held;
        }
        unreachable!()
    }

    /// How many numbers of the set are below a bound.
    pub fn below(&self, bound: u32) -> u32
        ensures { result ≡ length (numbers (take bound self.now)) }
    {
        let whole = (bound / 64) as usize;
        if whole >= self.words.len() {
            return self.count;
        }
        ones_of(&self.words[..whole]) + ones(low_bits(self.words[whole], bound % 64))
    }
}

/// How many bits of some words are set.
fn ones_of(words: &[u64]) -> u32
    requires { length words.now ≤ 1024 }
    ensures count { result ≡ length (numbers (flags words.now)) }
    ensures few { result ≤ 65536 }
{
    let mut total = 0;
    for word in words {
        total += ones(*word);
    }
    total
}
