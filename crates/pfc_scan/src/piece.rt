//! The pieces that a text is cut into.

ghost use Rattle.std.specs.Prelude.{◌≡◌};
ghost use Rattle.pfc_scan.specs.Finding.{first_of};

use pfc_base::Kind;

/// What a piece is read as.
#[derive(Drop)]
pub(crate) enum Reading {
    /// White space or a comment.
    Gap,
    /// A token.
    Token(Kind),
    /// A piece that is refused for itself, with its code.
    Refused(u16),
}

/// A piece at the front of a text: its bytes, and what it is read as.
#[derive(Drop)]
pub(crate) struct Piece {
    pub length: usize,
    pub reading: Reading,
}

/// What the first byte of a text can begin.
#[derive(Clone, Copy, PartialEq, Eq)]
pub(crate) enum First {
    /// White space.
    Blank,
    /// A comment in braces.
    Brace,
    /// A literal.
    Quote,
    /// A word.
    Letter,
    /// A number or a real literal.
    Digit,
    /// A sign, or a comment that `(*` opens, or nothing.
    Mark,
}

/// What this byte can begin.
pub(crate) fn first_of(b: u8) -> First
    ensures { result ≡ first_of b }
{
    match b {
        b'\t' | b'\n' | b'\r' | b' ' => First::Blank,
        b'{' => First::Brace,
        b'\'' => First::Quote,
        b'a'..=b'z' | b'A'..=b'Z' => First::Letter,
        b'0'..=b'9' => First::Digit,
        _ => First::Mark,
    }
}
