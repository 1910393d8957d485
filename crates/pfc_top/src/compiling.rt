//! From a text to the image of its program, or to its first fault.
ghost use Rattle.std.specs.Prelude.{◌≡◌, ◌≤◌, length, IfOk, IfErr};
ghost use Rattle.pfc_code.specs.Images.{plain_image};
ghost use Rattle.pfc_number_laws.specs.Tokens.{FitSymbols};
ghost use Rattle.pfc_number_laws.specs.Written.{FitsTree};
ghost use Rattle.pfc_tree.specs.Grammar.{IsSmall};
ghost use Rattle.pfc_tree.specs.Readings.{tree_shape};
ghost use Rattle.pfc_tree.specs.Symbols.{symbols};
ghost use Rattle.pfc_tree.specs.views.Parts.{tree_view};
ghost use Rattle.pfc_types.specs.Checking.{IsChecked};
ghost use Rattle.pfc_outcome.specs.Outcomes.{place_at as place_of_token};
ghost use Rattle.pfc_top.specs.Compiling.{IsCompiled, IsUncompiled, AreCompiled, AreUncompiled, IsImage, IsWithout};

use crate::bytes::are_bytes;
use pfc_base::{Place, Refusal, Token};
use pfc_check::{CheckFault, check};
use pfc_code::Image;
use pfc_generator::{GenFault, generate};
use pfc_number_laws::checked_programs_have_small_numbers;
use pfc_parse::{SyntaxFault, parse};
use pfc_scan::{ScanFault, scan};
use pfc_text_laws::texts_write_small_numbers;
use pfc_tree::Tree;
use pfc_types::Checked;
use std::alloc::Global;

/// The code of a token that is not expected.
const UNEXPECTED: u16 = 201;

/// The code of a token that stands too deep.
const TOO_DEEP: u16 = 202;

/// The code of a program with too many instructions.
const TOO_LARGE: u16 = 501;

/// Why a text has no image.
#[derive(Clone, Copy)]
pub(crate) enum Uncompiled {
    /// It has this fault first.
    Refused(Refusal),
    /// Memory is wanting.
    Memory,
}

/// The image of a text of at most 262,144 bytes.
pub(crate) fn compile(alloc: Global, text: &[u8]) -> Result<Image, Uncompiled>
    requires { length text.now ≤ 262144 }
    ensures image { IfOk result (λ image. IsCompiled text.now (plain_image image)) }
    ensures none { IfErr result (λ why. IsUncompiled text.now why) }
{
    are_bytes(text);
    texts_write_small_numbers();
    match scan(alloc, text) {
        Ok(scanned) => compile_tokens(alloc, &scanned.tokens, scanned.end),
        Err(ScanFault::Refused(refusal)) => Err(Uncompiled::Refused(refusal)),
        Err(ScanFault::Memory) => Err(Uncompiled::Memory),
    }
}

/// The image of the program that tokens write, behind which the text ends at `end`.
fn compile_tokens(alloc: Global, tokens: &[Token], end: Place) -> Result<Image, Uncompiled>
    requires few { length tokens.now ≤ 262144 }
    requires numbers { FitSymbols (symbols tokens.now) }
    ensures image { IfOk result (λ image. AreCompiled tokens.now (plain_image image)) }
    ensures none { IfErr result (λ why. AreUncompiled tokens.now end why) }
{
    checked_programs_have_small_numbers();
    match parse(alloc, tokens) {
        Ok(tree) => compile_tree(alloc, tree, tokens),
        Err(SyntaxFault::Unexpected { at }) => Err(refused_at(tokens, end, UNEXPECTED, at)),
        Err(SyntaxFault::Deep { at }) => Err(refused_at(tokens, end, TOO_DEEP, at)),
        Err(SyntaxFault::Memory) => Err(Uncompiled::Memory),
    }
}

/// The refusal of the token number `at`, or of the end for the number of the tokens.
fn refused_at(tokens: &[Token], end: Place, code: u16, at: u32) -> Uncompiled
    ensures { result ≡ Uncompiled.Refused (record { code = code; place = place_of_token tokens.now end at }) }
{
    let place = match tokens.get(at as usize) {
        Some(token) => token.place,
        None => end,
    };
    Uncompiled::Refused(Refusal { code, place })
}

/// The image of a small tree, which was read from these tokens.
fn compile_tree(alloc: Global, tree: Tree, tokens: &[Token]) -> Result<Image, Uncompiled>
    requires small { IsSmall (tree_shape tree) }
    requires fits { FitsTree (tree_view tree) }
    ensures image { IfOk result (λ image. IsImage (tree_view tree) (plain_image image)) }
    ensures none { IfErr result (λ why. IsWithout (tree_view tree) why) }
{
    match check(alloc, tree) {
        Ok(checked) => compile_checked(alloc, &checked, tokens),
        Err(
            CheckFault::Refused {
                refusal,
                tree: _tree,
            },
        ) => Err(Uncompiled::Refused(refusal)),
        Err(CheckFault::Memory { tree: _tree }) => Err(Uncompiled::Memory),
    }
}

/// The image of a checked tree, which was read from these tokens.
fn compile_checked(alloc: Global, checked: &Checked, tokens: &[Token]) -> Result<Image, Uncompiled>
    requires checked { IsChecked (tree_view checked.now.0) checked.now.1 checked.now.2 }
    requires fits { FitsTree (tree_view checked.now.0) }
    ensures image { IfOk result (λ image. IsImage (tree_view checked.now.0) (plain_image image)) }
    ensures none { IfErr result (λ why. IsWithout (tree_view checked.now.0) why) }
{
    match generate(alloc, checked, tokens) {
        Ok(image) => Ok(image),
        Err(GenFault::TooLarge) => Err(Uncompiled::Refused(Refusal {
            code: TOO_LARGE,
            place: Place { line: 1, column: 1 },
        })),
        Err(GenFault::Memory) => Err(Uncompiled::Memory),
    }
}
