//! The codes of the scanner's refusals.

/// A byte that begins no piece.
pub(crate) const BAD_BYTE: u16 = 101;
/// A comment that is not closed.
pub(crate) const OPEN_COMMENT: u16 = 102;
/// A literal that is not closed on its line.
pub(crate) const OPEN_LITERAL: u16 = 103;
/// A number above 2147483647.
pub(crate) const LARGE_NUMBER: u16 = 104;
/// A real literal or the word `real`.
pub(crate) const REAL_NUMBER: u16 = 105;
/// A name above 63 bytes.
pub(crate) const LONG_NAME: u16 = 106;
