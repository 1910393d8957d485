//! From a text to its checked tree, or to its first fault. That a program is too large is a fault too.
ghost use Rattle.std.specs.Prelude.{◌≡◌, ◌≤◌, None, length, IfOk, IfErr};
ghost use Rattle.pfc_tree.specs.Grammar.{IsSmall};
ghost use Rattle.pfc_tree.specs.Readings.{tree_shape};
ghost use Rattle.pfc_tree.specs.views.Parts.{tree_view};
ghost use Rattle.pfc_types.specs.rules.Whole.{first_fault};
ghost use Rattle.pfc_outcome.specs.Outcomes.{place_at as place_of_token};
ghost use Rattle.pfc_walk.specs.Reading.{IsRead, IsUnread, AreRead, AreUnread, IsSound, IsWithout};

use pfc_base::{Place, Refusal, Token};
use pfc_check::{CheckFault, check};
use pfc_code_size::{CountFault, count_instructions};
use pfc_parse::{SyntaxFault, parse};
use pfc_scan::{ScanFault, scan};
use pfc_tree::Tree;
use pfc_types::Checked;
use std::alloc::Global;

/// The code of a token that is not expected.
const UNEXPECTED: u16 = 201;

/// The code of a token that stands too deep.
const TOO_DEEP: u16 = 202;

/// The code of a program with too many instructions.
const TOO_LARGE: u16 = 501;

/// A text without a fault.
#[derive(Drop)]
pub(crate) struct Sound {
    pub(crate) tokens: Vec<Token>,
    pub(crate) checked: Checked,
}

/// Why a text has no checked tree.
#[derive(Clone, Copy)]
pub(crate) enum Unread {
    /// It has this fault first.
    Refused(Refusal),
    /// Memory is wanting.
    Memory,
}

/// The checked tree of a text of at most 262,144 bytes, and its tokens.
pub(crate) fn read(alloc: Global, text: &[u8]) -> Result<Sound, Unread>
    requires { length text.now ≤ 262144 }
    ensures sound { IfOk result (λ sound. IsRead text.now (tree_view sound.checked.0)) }
    ensures none { IfErr result (λ why. IsUnread text.now why) }
{
    match scan(alloc, text) {
        Ok(scanned) => match read_tokens(alloc, &scanned.tokens, scanned.end) {
            Ok(checked) => Ok(Sound {
                tokens: scanned.tokens,
                checked,
            }),
            Err(why) => Err(why),
        },
        Err(ScanFault::Refused(refusal)) => Err(Unread::Refused(refusal)),
        Err(ScanFault::Memory) => Err(Unread::Memory),
    }
}

/// The checked tree that tokens write, behind which the text ends at `end`.
fn read_tokens(alloc: Global, tokens: &[Token], end: Place) -> Result<Checked, Unread>
    requires { length tokens.now ≤ 262144 }
    ensures sound { IfOk result (λ checked. AreRead tokens.now (tree_view checked.0)) }
    ensures none { IfErr result (λ why. AreUnread tokens.now end why) }
{
    match parse(alloc, tokens) {
        Ok(tree) => read_tree(alloc, tree),
        Err(SyntaxFault::Unexpected { at }) => Err(refused_at(tokens, end, UNEXPECTED, at)),
        Err(SyntaxFault::Deep { at }) => Err(refused_at(tokens, end, TOO_DEEP, at)),
        Err(SyntaxFault::Memory) => Err(Unread::Memory),
    }
}

/// The refusal of the token number `at`, or of the end for the number of the tokens.
fn refused_at(tokens: &[Token], end: Place, code: u16, at: u32) -> Unread
    ensures { result ≡ Unread.Refused (record { code = code; place = place_of_token tokens.now end at }) }
{
    let place = match tokens.get(at as usize) {
        Some(token) => token.place,
        None => end,
    };
    Unread::Refused(Refusal { code, place })
}

/// The same tree, checked.
fn read_tree(alloc: Global, tree: Tree) -> Result<Checked, Unread>
    requires { IsSmall (tree_shape tree) }
    ensures same { IfOk result (λ checked. checked.0 ≡ tree) }
    ensures sound { IfOk result (λ checked. IsSound (tree_view tree)) }
    ensures none { IfErr result (λ why. IsWithout (tree_view tree) why) }
{
    match check(alloc, tree) {
        Ok(checked) => match fitting(alloc, &checked) {
            Ok(()) => Ok(checked),
            Err(why) => Err(why),
        },
        Err(
            CheckFault::Refused {
                refusal,
                tree: _tree,
            },
        ) => Err(Unread::Refused(refusal)),
        Err(CheckFault::Memory { tree: _tree }) => Err(Unread::Memory),
    }
}

/// Nothing, where the program of a checked tree is not too large.
fn fitting(alloc: Global, checked: &Checked) -> Result<(), Unread>
    requires { first_fault (tree_view checked.now.0) ≡ None }
    ensures sound { IfOk result (λ done. IsSound (tree_view checked.now.0)) }
    ensures none { IfErr result (λ why. IsWithout (tree_view checked.now.0) why) }
{
    match count_instructions(alloc, checked) {
        Ok(_) => Ok(()),
        Err(CountFault::TooLarge) => Err(Unread::Refused(Refusal {
            code: TOO_LARGE,
            place: Place { line: 1, column: 1 },
        })),
        Err(CountFault::Memory) => Err(Unread::Memory),
    }
}
