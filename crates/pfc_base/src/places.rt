//! Places in a text.

/// A place in a text: the line and the column of a byte, both counted from 1. A line ends with byte 10,
/// and a column is one byte.
#[derive(Clone, Copy, Debug, PartialEq, Eq)]
pub struct Place {
    pub line: u32,
    pub column: u32,
}
