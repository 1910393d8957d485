//! Signs of one and of two bytes.
ghost use Rattle.std.specs.Prelude.{◌≡◌, ◌∷◌, [], ◌<◌, length, slice_index, false};
ghost use Rattle.pfc_scan.specs.Pieces.{sign_number};
ghost use Rattle.pfc_scan.specs.Cutting.{opens_comment};
ghost use Rattle.pfc_scan.specs.Finding.{IsNext, double_number, first_of};
ghost use Rattle.pfc_scan.specs.declared.piece.First.TheVariants.{Mark};

use crate::piece::{Piece, Reading};
use pfc_base::{Kind, sign};

/// The longest sign at the front of a text, if there is one.
pub(crate) fn sign_piece(text: &[u8]) -> Option<Piece>
    requires some { 0 < length text.now }
    requires mark { first_of (slice_index text.now 0) ≡ Mark }
    requires closed { opens_comment text.now ≡ false }
    ensures { IsNext text.now result }
{
    if let Some(number) = double_sign(text) {
        return Some(Piece {
            length: 2,
            reading: Reading::Token(Kind::Sign(number)),
        });
    }
    let Some(number) = sign_of_one(text[0]) else {
        return None;
    };
    Some(Piece {
        length: 1,
        reading: Reading::Token(Kind::Sign(number)),
    })
}

/// The number of the sign that the first two bytes of a text are.
fn double_sign(text: &[u8]) -> Option<u8>
    ensures { result ≡ double_number text.now }
{
    if text.len() > 1 {
        sign_of_two(text[0], text[1])
    } else {
        None
    }
}

fn sign_of_two(a: u8, b: u8) -> Option<u8>
    ensures { result ≡ sign_number (a ∷ b ∷ []) }
{
    match (a, b) {
        (b'<', b'>') => Some(sign::NOT_EQUAL),
        (b'<', b'=') => Some(sign::LESS_EQUAL),
        (b'>', b'=') => Some(sign::GREATER_EQUAL),
        (b':', b'=') => Some(sign::BECOMES),
        (b'.', b'.') => Some(sign::DOT_DOT),
        (b'=', b'>') => Some(sign::ARROW),
        _ => None,
    }
}

fn sign_of_one(b: u8) -> Option<u8>
    ensures { result ≡ sign_number (b ∷ []) }
{
    match b {
        b'+' => Some(sign::PLUS),
        b'-' => Some(sign::MINUS),
        b'*' => Some(sign::STAR),
        b'=' => Some(sign::EQUAL),
        b'<' => Some(sign::LESS),
        b'>' => Some(sign::GREATER),
        b'(' => Some(sign::OPEN_PAREN),
        b')' => Some(sign::CLOSE_PAREN),
        b'[' => Some(sign::OPEN_BRACKET),
        b']' => Some(sign::CLOSE_BRACKET),
        b'.' => Some(sign::DOT),
        b',' => Some(sign::COMMA),
        b';' => Some(sign::SEMICOLON),
        b':' => Some(sign::COLON),
        b'!' => Some(sign::SEND),
        b'?' => Some(sign::RECEIVE),
        _ => None,
    }
}
