//! Tokens of a text.

use crate::{Name, Place, Text};

/// What a token is. Words and signs are numbered from 0 as the constants of `word` and `sign` say.
#[derive(PartialEq, Eq, Drop)]
pub enum Kind {
    /// A reserved word, by its number.
    Word(u8),
    /// A sign, by its number.
    Sign(u8),
    /// A name, in lower case.
    Name(Name),
    /// A number. A scanned one is from 0 to 2147483647.
    Number(i32),
    /// A literal between quotes: its bytes, with two quotes inside it read as one.
    Literal(Text),
}

/// A token and the place of its first byte.
#[derive(PartialEq, Eq, Drop)]
pub struct Token {
    pub kind: Kind,
    pub place: Place,
}
