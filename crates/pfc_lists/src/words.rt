//! The 64 lowest numbers of a set, as the bits of one word.
ghost use Rattle.std.specs.Prelude.{◌≡◌, ◌<◌, ◌≤◌, ◌+◌, ◌%◌, ◌^◌, ℕ, true, false, length, get_or, set};
ghost use Rattle.pfc_lists.specs.Bits.{bits, numbers_from};

/// What is left of a search for a bit: the bits among which it is, how many set ones are before it there, and the
/// number of the lowest.
#[derive(Clone, Copy)]
struct Search {
    word: u64,
    before: u32,
    lowest: u32,
}

impl Search {
    /// The search in the half of the bits in which the one that is sought is.
    fn halved(self, half: u32) -> Search
        requires half { half < 64 }
        requires found { self.before < length (numbers_from self.lowest (bits (half + half) self.word)) }
        requires small { self.lowest + half < 2 ^ 31 }
        ensures found { result.before < length (numbers_from result.lowest (bits half result.word)) }
        ensures same { get_or (numbers_from result.lowest (bits half result.word)) result.before 0 ≡ get_or
            (numbers_from self.lowest (bits (half + half) self.word)) self.before 0 }
        ensures near { result.lowest ≤ self.lowest + half }
    {
        let low = low_bits(self.word, half);
        let held = low.count_ones();
        if self.before < held {
            return Search { word: low, ..self };
        }
        Search {
            word: self.word >> half,
            before: self.before - held,
            lowest: self.lowest + half,
        }
    }
}

/// The lowest bits of a word, so many.
pub(crate) fn low_bits(word: u64, count: u32) -> u64
    requires { count < 64 }
    ensures { result ≡ word % 2 ^ count }
{
    word & ((1 << count) - 1)
}

/// How many bits are set, which are so many numbers wherever the lowest bit stands.
pub(crate) fn ones(word: u64) -> u32
    ensures count { (n : ℕ) → result ≡ length (numbers_from n (bits 64 word)) }
    ensures few { result ≤ 64 }
{
    word.count_ones()
}

/// Whether no bit is set, and so none of its numbers is held wherever the lowest bit stands.
pub(crate) fn is_empty(word: u64) -> bool
    ensures none { result ≡ true → (n : ℕ) → length (numbers_from n (bits 64 word)) ≡ 0 }
    ensures some { result ≡ false → (n : ℕ) → 0 < length (numbers_from n (bits 64 word)) }
{
    word == 0
}

/// The number of a set bit of the word, of which so many are lower, where bit 0 has the number `lowest`. The lowest of all, which is the only one of
/// a set of one, is found in one look.
pub(crate) fn number_of_bit(word: u64, before: u32, lowest: u32) -> u32
    requires found { before < length (numbers_from lowest (bits 64 word)) }
    requires small { lowest < 2 ^ 30 }
    ensures { result ≡ get_or (numbers_from lowest (bits 64 word)) before 0 }
{
    if before == 0 {
        return number_of_lowest(word, lowest);
    }
    number_among(word, before, lowest)
}

/// The number of the lowest bit that is set.
pub(crate) fn number_of_lowest(word: u64, lowest: u32) -> u32
    requires found { 0 < length (numbers_from lowest (bits 64 word)) }
    requires small { lowest < 2 ^ 30 }
    ensures { result ≡ get_or (numbers_from lowest (bits 64 word)) 0 0 }
{
    lowest + word.trailing_zeros()
}

/// The number of a set bit, half of the bits being left behind six times.
fn number_among(word: u64, before: u32, lowest: u32) -> u32
    requires found { before < length (numbers_from lowest (bits 64 word)) }
    requires small { lowest < 2 ^ 30 }
    ensures { result ≡ get_or (numbers_from lowest (bits 64 word)) before 0 }
{
    let all = Search {
        word,
        before,
        lowest,
    };
    let found = all
        .halved(32)
        .halved(16)
        .halved(8)
        .halved(4)
        .halved(2)
        .halved(1);
    found.lowest
}

/// Whether the bit at this place is set.
pub(crate) fn has_bit(word: u64, place: u32) -> bool
    requires { place < 64 }
    ensures { result ≡ get_or (bits 64 word) place false }
{
    word >> place & 1 == 1
}

/// The word with the bit at this place set, or not.
pub(crate) fn with_bit(word: u64, place: u32, held: bool) -> u64
    requires { place < 64 }
    ensures { bits 64 result ≡ set (bits 64 word) place held }
{
    if held {
        word | 1 << place
    } else {
        word & !(1 << place)
    }
}
