//! Texts, their tokens and where they end.

use pfc_base::{Kind, Memory, Place, Token, decimal};
use pfc_scan::{ScanFault, Scanned, scan};
use std::alloc::Global;
use std::test::Fail;

/// The reserved words by their numbers.
const WORDS: &str = "\
ACCEPT AND ARRAY BEGIN CASE CHANNEL COBEGIN COEND CONST DIV DO DOWNTO ELSE END ENTRY EXPORT FOR FOREVER FUNCTION GUARDED IF MOD MONITOR NOT NULL OF OR \
PRI PROCEDURE PROCESS PROGRAM RECORD REPEAT REPLICATE REQUEUE RESOURCE SELECT TERMINATE THEN TIMEOUT TO TYPE UNTIL VAR WHEN WHILE";

/// The signs by their numbers.
const SIGNS: &str = "+ - * = <> < <= > >= ( ) [ ] := . .. , ; : ! ? =>";

/// A text in which `~` is a line end, `^` a carriage return and a backquote a tab; its tokens, each behind the column of its
/// first byte, with reserved words in capitals and literals in quotes; and the line and the column of its end.
const TEXTS: &str = "\
||1:1
 `^||1:4
1..5|1:1 2:.. 4:5|1:5
1e|1:1 2:e|1:3
1.e5|1:1 2:. 3:e5|1:5
1e+|1:1 2:e 3:+|1:4
x1e5|1:x1e5|1:5
'a''b'|1:'a'b'|1:7
''|1:''|1:3
''''|1:'''|1:5
'a' 'b'|1:'a' 5:'b'|1:8
(*{*)a{*)(*}b|6:a 13:b|1:14
{}(**)(***){{}||1:15
2147483647 0002147483647|1:2147483647 12:2147483647|1:25
a23456789_123456789_123456789_123456789_123456789_123456789_123|1:a23456789_123456789_123456789_123456789_123456789_123456789_123|1:64
REAL1 Program pROCESS while_|1:real1 7:PROGRAM 15:PROCESS 23:while_|1:29
:=: =|1::= 3:: 5:=|1:6
=>= >|1:=> 3:= 5:>|1:6
<><=>=<>|1:<> 3:<= 5:>= 7:<>|1:9
...|1:.. 3:.|1:4
. .|1:. 3:.|1:4
()[]|1:( 2:) 3:[ 4:]|1:5
+-*,;!?|1:+ 2:- 3:* 4:, 5:; 6:! 7:?|1:8
accept and array begin case channel cobegin coend const div do downto else end entry export for forever function guarded if mod monitor not null of or pri procedure process program record repeat replicate requeue resource select terminate then timeout to type until var when while|1:ACCEPT 8:AND 12:ARRAY 18:BEGIN 24:CASE 29:CHANNEL 37:COBEGIN 45:COEND 51:CONST 57:DIV 61:DO 64:DOWNTO 71:ELSE 76:END 80:ENTRY 86:EXPORT 93:FOR 97:FOREVER 105:FUNCTION 114:GUARDED 122:IF 125:MOD 129:MONITOR 137:NOT 141:NULL 146:OF 149:OR 152:PRI 156:PROCEDURE 166:PROCESS 174:PROGRAM 182:RECORD 189:REPEAT 196:REPLICATE 206:REQUEUE 214:RESOURCE 223:SELECT 230:TERMINATE 240:THEN 245:TIMEOUT 253:TO 256:TYPE 261:UNTIL 267:VAR 271:WHEN 276:WHILE|1:281
||1:1
a|1:a|1:2
a~|1:a|2:1
(*~*) ^||2:5
a.~`|1:a 2:.|2:2
";

/// The bytes that a text of the table stands for.
fn bytes_of(alloc: Global, text: &str) -> Result<Vec<u8>, Memory> {
    let mut bytes = Vec::new(alloc);
    for b in text.as_bytes() {
        bytes.push(match *b {
            b'`' => b'\t',
            b'^' => b'\r',
            b'~' => b'\n',
            other => other,
        })?;
    }
    Ok(bytes)
}

pub(super) fn scanned(alloc: Global, text: &[u8]) -> Result<Scanned, ScanFault> {
    if text.len() > 262_144 {
        return Err(ScanFault::Memory);
    }
    scan(alloc, text)
}

/// Adds the word of a table at a place from 0.
fn add_nth(text: &mut Vec<u8>, table: &str, place: u8) -> Result<(), Memory> {
    for (at, word) in table.split_whitespace().enumerate() {
        if at == usize::from(place) {
            text.extend_from_slice(word.as_bytes())?;
        }
    }
    Ok(())
}

/// Adds the column of a token and how it is written.
fn add_token(alloc: Global, text: &mut Vec<u8>, token: &Token) -> Result<(), Memory> {
    text.extend_from_slice(decimal(alloc, i64::from(token.place.column))?.bytes())?;
    text.push(b':')?;
    match &token.kind {
        Kind::Word(n) => add_nth(text, WORDS, *n),
        Kind::Sign(n) => add_nth(text, SIGNS, *n),
        Kind::Name(name) => Ok(text.extend_from_slice(name.bytes())?),
        Kind::Number(n) => Ok(text.extend_from_slice(decimal(alloc, i64::from(*n))?.bytes())?),
        Kind::Literal(literal) => {
            text.push(b'\'')?;
            text.extend_from_slice(literal.bytes())?;
            Ok(text.push(b'\'')?)
        }
    }
}

/// The tokens and the end, as the table writes them.
fn shown(alloc: Global, scanned: &Scanned) -> Result<Vec<u8>, Memory> {
    let mut text = Vec::new(alloc);
    for (at, token) in scanned.tokens.iter().enumerate() {
        if at > 0 {
            text.push(b' ')?;
        }
        add_token(alloc, &mut text, token)?;
    }
    text.push(b'|')?;
    text.extend_from_slice(decimal(alloc, i64::from(scanned.end.line))?.bytes())?;
    text.push(b':')?;
    text.extend_from_slice(decimal(alloc, i64::from(scanned.end.column))?.bytes())?;
    Ok(text)
}

/// Whether a text has the tokens and the end that its line of the table says.
fn is_scanned(alloc: Global, line: &str) -> Result<bool, ScanFault> {
    let Some((text, owed)) = line.split_once('|') else {
        return Ok(false);
    };
    let scanned = scanned(alloc, &bytes_of(alloc, text)?)?;
    Ok(shown(alloc, &scanned)?.as_slice() == owed.as_bytes())
}

#[test]
fn texts_have_their_tokens(rt: HostRuntime) {
    for line in TEXTS.lines() {
        assert!(rt; is_scanned(rt.alloc(), line) == Ok(true), "in {line}");
    }
}

/// Whether a literal keeps a byte 0 and one that is no ASCII.
fn keeps_bytes(alloc: Global) -> Result<bool, ScanFault> {
    let scanned = scanned(alloc, b"'\x00\xff{'")?;
    match scanned.tokens.as_slice() {
        [
            Token {
                kind: Kind::Literal(text),
                ..
            },
        ] => Ok(text.bytes() == b"\x00\xff{".as_slice()),
        _ => Ok(false),
    }
}

#[test]
fn a_literal_keeps_any_byte(rt: HostRuntime) {
    assert!(rt; keeps_bytes(rt.alloc()) == Ok(true));
}

/// A byte with which a text of the greatest length is filled, the number of its tokens, and the line and the column of its end.
static FULL: [(u8, usize, u32, u32); 5] = [
    (b' ', 0, 1, 262_145),
    (b'\n', 0, 262_145, 1),
    (b'+', 262_144, 1, 262_145),
    (b'.', 131_072, 1, 262_145),
    (b'\'', 1, 1, 262_145),
];

#[test]
fn full_texts_are_scanned(rt: HostRuntime) -> Result<(), Fail> {
    for (byte, tokens, line, column) in FULL {
        let text = vec![in rt.alloc(); byte; 262_144]?;
        let scanned = scanned(rt.alloc(), &text)?;
        assert!(rt; scanned.tokens.len() == tokens && scanned.end == Place { line, column });
    }
    Ok(())
}
