//! The signs, numbered from 0.

/// `+`
pub const PLUS: u8 = 0;
/// `-`
pub const MINUS: u8 = 1;
/// `*`
pub const STAR: u8 = 2;
/// `=`
pub const EQUAL: u8 = 3;
/// `<>`
pub const NOT_EQUAL: u8 = 4;
/// `<`
pub const LESS: u8 = 5;
/// `<=`
pub const LESS_EQUAL: u8 = 6;
/// `>`
pub const GREATER: u8 = 7;
/// `>=`
pub const GREATER_EQUAL: u8 = 8;
/// `(`
pub const OPEN_PAREN: u8 = 9;
/// `)`
pub const CLOSE_PAREN: u8 = 10;
/// `[`
pub const OPEN_BRACKET: u8 = 11;
/// `]`
pub const CLOSE_BRACKET: u8 = 12;
/// `:=`
pub const BECOMES: u8 = 13;
/// `.`
pub const DOT: u8 = 14;
/// `..`
pub const DOT_DOT: u8 = 15;
/// `,`
pub const COMMA: u8 = 16;
/// `;`
pub const SEMICOLON: u8 = 17;
/// `:`
pub const COLON: u8 = 18;
/// `!`
pub const SEND: u8 = 19;
/// `?`
pub const RECEIVE: u8 = 20;
/// `=>`
pub const ARROW: u8 = 21;
/// How many signs there are: each number of a sign is below it.
pub const COUNT: u8 = 22;
