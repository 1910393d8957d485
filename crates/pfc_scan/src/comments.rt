//! Comments. Each opener has its own closer, and a comment holds any other byte.
ghost use Rattle.std.specs.Prelude.{◌≡◌, ◌≤◌, length, slice_index, IfSome, false};
ghost use Rattle.pfc_scan.specs.Finding.{IsNext, brace_close, star_close};

use crate::piece::{Piece, Reading};

/// The comment that `{` opens, if it is closed.
pub(crate) fn brace_comment(text: &[u8]) -> Option<Piece>
    requires { slice_index text.now 0 ≡ 123 }
    ensures { IsNext text.now result }
{
    let Some(inside) = brace_close(&text[1..]) else {
        return None;
    };
    Some(Piece {
        length: 1 + inside,
        reading: Reading::Gap,
    })
}

/// The comment that `(*` opens, if it is closed.
pub(crate) fn star_comment(text: &[u8]) -> Option<Piece>
    requires round { slice_index text.now 0 ≡ 40 }
    requires star { slice_index text.now 1 ≡ 42 }
    ensures { IsNext text.now result }
{
    let Some(inside) = star_close(&text[2..]) else {
        return None;
    };
    Some(Piece {
        length: 2 + inside,
        reading: Reading::Gap,
    })
}

/// The bytes up to and with the first `}`.
fn brace_close(text: &[u8]) -> Option<usize>
    ensures value { result ≡ brace_close 0 text.now }
    ensures within { IfSome result (λ n. n ≤ length text.now) }
{
    for (at, b) in text.iter().enumerate() {
        if *b == b'}' {
            return Some(at + 1);
        }
    }
    None
}

/// The bytes up to and with the first `*)`.
fn star_close(text: &[u8]) -> Option<usize>
    ensures value { result ≡ star_close false 0 text.now }
    ensures within { IfSome result (λ n. n ≤ length text.now) }
{
    let mut is_after_star = false;
    for (at, b) in text.iter().enumerate() {
        if is_after_star && *b == b')' {
            return Some(at + 1);
        }
        is_after_star = *b == b'*';
    }
    None
}
