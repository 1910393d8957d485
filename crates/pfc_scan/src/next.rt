//! The piece at the front of a text.
ghost use Rattle.std.specs.Prelude.{◌≡◌, ◌<◌, length, slice_index, true, IfOk};
ghost use Rattle.pfc_scan.specs.Pieces.{is_white};
ghost use Rattle.pfc_scan.specs.Cutting.{cause_of};
ghost use Rattle.pfc_scan.specs.Finding.{IsNext, IsNextPiece, first_of};
ghost use Rattle.pfc_scan.specs.declared.piece.First.TheVariants.{Mark};

use crate::code;
use crate::comments::{brace_comment, star_comment};
use crate::literals::literal;
use crate::numbers::number;
use crate::piece::{First, Piece, Reading, first_of};
use crate::signs::sign_piece;
use crate::words::word_piece;
use pfc_base::Memory;
use std::alloc::Global;

/// The longest piece at the front of a text, or `None` where no piece begins.
pub(crate) fn next_piece(alloc: Global, text: &[u8]) -> Result<Option<Piece>, Memory>
    requires { 0 < length text.now }
    ensures { IfOk result (IsNext text.now) }
{
    match first_of(text[0]) {
        First::Blank => Ok(Some(white(text))),
        First::Brace => Ok(brace_comment(text)),
        First::Quote => literal(alloc, text),
        First::Letter => word_piece(alloc, text),
        First::Digit => Ok(Some(number(text))),
        First::Mark => Ok(mark(text)),
    }
}

fn white(_text: &[u8]) -> Piece
    requires { is_white (slice_index _text.now 0) ≡ true }
    ensures { IsNextPiece _text.now result }
{
    Piece {
        length: 1,
        reading: Reading::Gap,
    }
}

fn mark(text: &[u8]) -> Option<Piece>
    requires some { 0 < length text.now }
    requires mark { first_of (slice_index text.now 0) ≡ Mark }
    ensures { IsNext text.now result }
{
    if text[0] == b'(' && text.len() > 1 && text[1] == b'*' {
        star_comment(text)
    } else {
        sign_piece(text)
    }
}

/// Why no piece begins a text.
pub(crate) fn cause_of(text: &[u8]) -> u16
    requires { 0 < length text.now }
    ensures { result ≡ cause_of text.now }
{
    if text[0] == b'{' || (text[0] == b'(' && text.len() > 1 && text[1] == b'*') {
        code::OPEN_COMMENT
    } else if text[0] == b'\'' {
        code::OPEN_LITERAL
    } else {
        code::BAD_BYTE
    }
}
