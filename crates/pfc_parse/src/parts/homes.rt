//! Whose parts are read, and what begins a part there.
ghost use Rattle.std.specs.Prelude.{◌≡◌, ◌<◌, ◌||◌, zero, Bool, length, IfSome, option_map};
ghost use Rattle.pfc_tree.specs.trees.Parts.{PartTree};
ghost use Rattle.pfc_grammar.specs.Heads.{as_word_of_program, as_word_of_resource, begins_block, begins_part};
ghost use Rattle.pfc_token_parser.specs.Giving.{Halts, sees, taken};
ghost use Rattle.pfc_parse.specs.Homes.{block_at, home_view};

use pfc_base::{Place, Token, word};
use pfc_token_parser::{Halt, is_word, word};

/// Whose parts a list holds.
#[derive(Clone, Copy, PartialEq, Eq)]
pub(crate) enum Home {
    /// The program's, among which monitors, resources and processes stand.
    Program,
    /// A resource's, among which guarded procedures stand.
    Resource,
    /// A sub's, a monitor's or a process's.
    Other,
}

/// The word `n`, where a program's parts stand: its place, and the tokens behind it.
pub(crate) fn word_of_program(home: Home, tokens: &[Token], n: u8) -> Option<(Place, &[Token])>
    ensures taken { taken (as_word_of_program (home_view home) n) tokens.now ≡ option_map (λ r. ((tt, r.0), r.1.now)) result }
    ensures kept { IfSome result (λ r. length r.1.now < length tokens.now) }
{
    match home {
        Home::Program => word(tokens, n),
        Home::Resource | Home::Other => None,
    }
}

/// The word `n`, where a resource's parts stand: its place, and the tokens behind it.
pub(crate) fn word_of_resource(home: Home, tokens: &[Token], n: u8) -> Option<(Place, &[Token])>
    ensures taken { taken (as_word_of_resource (home_view home) n) tokens.now ≡ option_map (λ r. ((tt, r.0), r.1.now)) result }
    ensures kept { IfSome result (λ r. length r.1.now < length tokens.now) }
{
    match home {
        Home::Resource => word(tokens, n),
        Home::Program | Home::Other => None,
    }
}

/// Whether the first token begins a part that is a block.
fn begins_block(home: Home, tokens: &[Token]) -> bool
    ensures { result ≡ sees (begins_block (home_view home)) tokens.now }
{
    is_word(tokens, word::PROCEDURE)
        || is_word(tokens, word::FUNCTION)
        || word_of_resource(home, tokens, word::GUARDED).is_some()
        || word_of_program(home, tokens, word::MONITOR).is_some()
        || word_of_program(home, tokens, word::RESOURCE).is_some()
        || word_of_program(home, tokens, word::PROCESS).is_some()
}

/// Whether the first token begins a part.
pub(crate) fn begins_part(home: Home, tokens: &[Token]) -> bool
    ensures { result ≡ sees (begins_part (home_view home)) tokens.now }
{
    is_word(tokens, word::CONST)
        || is_word(tokens, word::TYPE)
        || is_word(tokens, word::VAR)
        || begins_block(home, tokens)
}

/// Where no level is left for a block.
#[tactic(auto, unfolding(crate::specs::Homes::block_at, pfc_grammar::specs::placed::Reading::choose, pfc_grammar::specs::placed::Reading::stop, pfc_grammar::specs::placed::Reading::stop_deep))]
pub(crate) fn no_block(home: Home, tokens: &[Token]) -> Halt
    ensures { Halts {A = PartTree} result (block_at zero (home_view home) tokens.now) }
{
    if begins_block(home, tokens) {
        Halt::Deep(tokens.len())
    } else {
        Halt::Unexpected(tokens.len())
    }
}
