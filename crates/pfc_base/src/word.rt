//! The reserved words, numbered from 0 in the order of the alphabet.

/// `accept`
pub const ACCEPT: u8 = 0;
/// `and`
pub const AND: u8 = 1;
/// `array`
pub const ARRAY: u8 = 2;
/// `begin`
pub const BEGIN: u8 = 3;
/// `case`
pub const CASE: u8 = 4;
/// `channel`
pub const CHANNEL: u8 = 5;
/// `cobegin`
pub const COBEGIN: u8 = 6;
/// `coend`
pub const COEND: u8 = 7;
/// `const`
pub const CONST: u8 = 8;
/// `div`
pub const DIV: u8 = 9;
/// `do`
pub const DO: u8 = 10;
/// `downto`
pub const DOWNTO: u8 = 11;
/// `else`
pub const ELSE: u8 = 12;
/// `end`
pub const END: u8 = 13;
/// `entry`
pub const ENTRY: u8 = 14;
/// `export`
pub const EXPORT: u8 = 15;
/// `for`
pub const FOR: u8 = 16;
/// `forever`
pub const FOREVER: u8 = 17;
/// `function`
pub const FUNCTION: u8 = 18;
/// `guarded`
pub const GUARDED: u8 = 19;
/// `if`
pub const IF: u8 = 20;
/// `mod`
pub const MOD: u8 = 21;
/// `monitor`
pub const MONITOR: u8 = 22;
/// `not`
pub const NOT: u8 = 23;
/// `null`
pub const NULL: u8 = 24;
/// `of`
pub const OF: u8 = 25;
/// `or`
pub const OR: u8 = 26;
/// `pri`
pub const PRI: u8 = 27;
/// `procedure`
pub const PROCEDURE: u8 = 28;
/// `process`
pub const PROCESS: u8 = 29;
/// `program`
pub const PROGRAM: u8 = 30;
/// `record`
pub const RECORD: u8 = 31;
/// `repeat`
pub const REPEAT: u8 = 32;
/// `replicate`
pub const REPLICATE: u8 = 33;
/// `requeue`
pub const REQUEUE: u8 = 34;
/// `resource`
pub const RESOURCE: u8 = 35;
/// `select`
pub const SELECT: u8 = 36;
/// `terminate`
pub const TERMINATE: u8 = 37;
/// `then`
pub const THEN: u8 = 38;
/// `timeout`
pub const TIMEOUT: u8 = 39;
/// `to`
pub const TO: u8 = 40;
/// `type`
pub const TYPE: u8 = 41;
/// `until`
pub const UNTIL: u8 = 42;
/// `var`
pub const VAR: u8 = 43;
/// `when`
pub const WHEN: u8 = 44;
/// `while`
pub const WHILE: u8 = 45;
/// How many reserved words there are: each number of a word is below it.
pub const COUNT: u8 = 46;
