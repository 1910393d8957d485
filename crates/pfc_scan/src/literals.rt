//! Literals. A literal stands on one line, and two quotes inside it mean one.
ghost use Rattle.std.specs.Prelude.{◌≡◌, ◌<◌, ◌≤◌, length, slice_index, IfOk, IfSome, false};
ghost use Rattle.pfc_scan.specs.Finding.{IsNext, quote_close, unquoted};

use crate::piece::{Piece, Reading};
use pfc_base::{Kind, Memory, Text};
use std::alloc::Global;

/// The longest literal at the front of a text, if one is closed on its line.
pub(crate) fn literal(alloc: Global, text: &[u8]) -> Result<Option<Piece>, Memory>
    requires { slice_index text.now 0 ≡ 39 }
    ensures { IfOk result (IsNext text.now) }
{
    let Some(inside) = quote_close(&text[1..]) else {
        return Ok(None);
    };
    let bytes = unquoted(alloc, &text[1..inside])?;
    Ok(Some(Piece {
        length: 1 + inside,
        reading: Reading::Token(Kind::Literal(bytes)),
    }))
}

/// The bytes up to and with the last quote that can close a literal on this line.
fn quote_close(text: &[u8]) -> Option<usize>
    ensures value { result ≡ quote_close false text.now }
    ensures within { IfSome result (λ n. (0 < n) × (n ≤ length text.now)) }
{
    let mut closed = None;
    let mut is_after_quote = false;
    for (at, b) in text.iter().enumerate() {
        match *b {
            b'\'' if is_after_quote => is_after_quote = false,
            b'\'' => {
                closed = Some(at + 1);
                is_after_quote = true;
            }
            b'\n' => return closed,
            _ if is_after_quote => return closed,
            _ => {}
        }
    }
    closed
}

/// The bytes that a literal means: of two quotes the first.
fn unquoted(alloc: Global, bytes: &[u8]) -> Result<Text, Memory>
    ensures { IfOk result (λ t. t ≡ unquoted false bytes.now) }
{
    let mut text = Vec::new(alloc);
    let mut is_after_quote = false;
    for b in bytes {
        let is_second = is_after_quote && *b == b'\'';
        if !is_second {
            text.push(*b)?;
        }
        is_after_quote = *b == b'\'' && !is_second;
    }
    Ok(Text::from_vec(text))
}
