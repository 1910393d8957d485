//! The words of a generator.
ghost use Rattle.std.specs.Prelude.{◌≡◌};
ghost use Rattle.pfc_sched.specs.Words.{word, after_word, stream};

use rand_core::utils::NextWord;
use rand_pcg::Lcg64Xsh32;

/// The generator of a seed, with the number of the stream.
#[tactic(auto, unfolding(crate::specs::Words::stream))]
pub(crate) fn words_of(seed: u64, number: u64) -> Lcg64Xsh32
    ensures { result ≡ stream seed number }
{
    Lcg64Xsh32::new(seed, number)
}

/// The next word, from 0 to 2^32 - 1.
#[tactic(auto, unfolding(crate::specs::Words::word, crate::specs::Words::after_word))]
pub(crate) fn next_word(words: &mut Lcg64Xsh32) -> u32
    ensures word { result ≡ word words.old }
    ensures words { words.new ≡ after_word words.old }
{
    words.next_word()
}

/// The next word, from 0 to 2^32 - 1, of a generator that stays as it is.
#[tactic(auto, unfolding(crate::specs::Words::word))]
pub(crate) fn coming_word(words: &Lcg64Xsh32) -> u32
    ensures { result ≡ word words.now }
{
    let mut coming = words.clone().unwrap();
    coming.next_word()
}
