//! Pieces of output with and without a width.

use pfc_values::{Output, PieceFault, Simple};
use std::alloc::Global;

/// Pieces one behind the other, and what is written then, with `open` where a line is. A piece is its type (i: integer,
/// b: boolean, c: char, s: a text), the value and, where it has one, the width. Behind `!` stands the number of its fault.
/// A line end is written as `~`.
const PIECES: &str = "\
i:7|7|open
i:7:0|7|open
i:7:1|7|open
i:7:4|   7|open
i:-7:4|  -7|open
i:12345:4|12345|open
i:-2147483648:12| -2147483648|open
s:x:20|                   x|open
s:kept s:x:256!16 c:120:256!16|kept|open
s:kept s:x:-1!16 c:120:-1!16|kept|open
s:kept s:x:2147483647!16 c:120:2147483647!16|kept|open
s:kept s:x:-2147483648!16 c:120:-2147483648!16|kept|open
b:0:6 b:1 c:65:2| falsetrue A|open
||
s:~|~|
s:~ s:a|~a|open
s:~ s:a s:~|~a~|
";

/// A piece with its width.
fn put(output: &mut Output, piece: &str) -> Option<Result<(), PieceFault>> {
    let (t, rest) = piece.split_once(':')?;
    let (value, width) = match rest.split_once(':') {
        Some((value, width)) => (value, Some(width.parse::<i64>().ok()?)),
        None => (rest, None),
    };
    Some(match t {
        "i" => output.put_value(Simple::Integer, value.parse().ok()?, width),
        "b" => output.put_value(Simple::Boolean, value.parse().ok()?, width),
        "c" => output.put_value(Simple::Char, value.parse().ok()?, width),
        _ if value == "~" => output.put(b"\n", width),
        _ => output.put(value.as_bytes(), width),
    })
}

/// Whether a piece is put, or refused with the fault behind its `!`.
fn is_put(output: &mut Output, piece: &str) -> bool {
    match piece.split_once('!') {
        None => put(output, piece) == Some(Ok(())),
        Some((piece, number)) => match put(output, piece) {
            Some(Err(PieceFault::Fault(fault))) => number.parse() == Ok(fault.number()),
            _ => false,
        },
    }
}

/// Whether these are the bytes of a text in which `~` is a line end.
fn is_written(bytes: &[u8], text: &str) -> bool {
    bytes.len() == text.len()
        && bytes
            .iter()
            .zip(text.as_bytes())
            .all(|(a, b)| *a == *b || (*a == b'\n' && *b == b'~'))
}

/// Whether the pieces of a line of the table are put as it says.
fn is_given(output: &mut Output, line: &str) -> bool {
    let Some((pieces, rest)) = line.split_once('|') else {
        return false;
    };
    let Some((text, open)) = rest.split_once('|') else {
        return false;
    };
    output.clear();
    for piece in pieces.split_whitespace() {
        if !is_put(output, piece) {
            return false;
        }
    }
    is_written(output.bytes(), text) && output.ends_inside_line() == (open == "open")
}

#[test]
fn pieces(rt: HostRuntime) {
    let mut output = Output::new(rt.alloc());
    for line in PIECES.lines() {
        assert!(rt; is_given(&mut output, line), "in {line}");
    }
}

/// The widest piece, and a byte that is no ASCII.
fn widest(alloc: Global) -> Result<bool, PieceFault> {
    let mut output = Output::new(alloc);
    output.put_value(Simple::Char, 255, Some(255))?;
    Ok(
        output.bytes().len() == 255
            && output.bytes().first() == Some(&b' ')
            && output.bytes().last() == Some(&255),
    )
}

#[test]
fn the_widest_piece(rt: HostRuntime) {
    assert!(rt; widest(rt.alloc()) == Ok(true));
}
