//! Draws: the numbers of `random`.
ghost use Rattle.std.specs.Prelude.{◌≡◌};
ghost use Rattle.pfc_sched.specs.Draws.{drawn, after_draw, first_draws};

use crate::words::{next_word, words_of};
use pfc_base::RunFault;
use rand_pcg::Lcg64Xsh32;
use std::marker::Model;

/// The number of the stream that `random` draws from.
const STREAM: u64 = 2;

/// What `random` draws from. A contract sees the generator.
#[derive(Drop)]
pub struct Draws {
    words: Lcg64Xsh32,
}

impl Model for Draws {
    ghost use Rattle.rand_pcg.specs.Lcg.{Lcg};

    ghost Value = { Lcg };

    ghost view = { λ d. d.words };
}

impl Draws {
    /// The draws of a seed.
    pub fn new(seed: u64) -> Draws
        ensures { result ≡ first_draws seed }
    {
        Draws {
            words: words_of(seed, STREAM),
        }
    }

    /// A number from 0 to `n`: the next word modulo `n + 1`. It is the fault of a negative argument, without a word
    /// drawn, where `n` is negative.
    pub fn draw(&mut self, n: i64) -> Result<i64, RunFault>
        ensures answer { result ≡ drawn self.old n }
        ensures words { self.new ≡ after_draw self.old n }
    {
        if n < 0 {
            return Err(RunFault::Below);
        }
        let word = next_word(&mut self.words);
        Ok((u64::from(word) % (n.unsigned_abs() + 1)) as i64)
    }
}
