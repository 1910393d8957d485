//! The faults of a parse.

/// Why tokens have no tree. A place is the index of a token, from 0, or the number of the tokens for their end.
#[derive(Clone, Copy, Debug, PartialEq, Eq)]
pub enum SyntaxFault {
    /// The token at this place is not expected, or their end is not.
    Unexpected { at: u32 },
    /// The token at this place stands deeper than 64.
    Deep { at: u32 },
    /// Memory was refused.
    Memory,
}
