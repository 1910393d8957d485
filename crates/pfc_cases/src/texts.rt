//! Texts, each described by a line.

use crate::stop::Stop;
use pfc_base::decimal;
use std::alloc::Global;

/// The files that a line describes: the text `a.pas`, and behind each tab a further file, whose name ends before the first `=`.
pub(crate) fn files_of(alloc: Global, line: &str) -> Result<Vec<(String, Vec<u8>)>, Stop> {
    let mut files = Vec::new(alloc);
    for (at, part) in line.split('\t').enumerate() {
        let (name, text) = match part.split_once('=') {
            Some(named) if at > 0 => named,
            _ => ("a.pas", part),
        };
        files.push((String::from_str(alloc, name)?, text_of(alloc, text)?))?;
    }
    Ok(files)
}

/// The text of a line: its bytes, with `\n` for a line end and `\` before two hexadecimal digits for any other byte.
/// Behind the word `made` stand pieces between bars. A piece with a number and `*` before it is repeated, and in it `#` is
/// the number of the repetition, from 0.
fn text_of(alloc: Global, line: &str) -> Result<Vec<u8>, Stop> {
    let mut text = Vec::new(alloc);
    match line.strip_prefix("made ") {
        Some(pieces) => {
            for piece in pieces.split('|') {
                add_piece(alloc, &mut text, piece)?;
            }
        }
        None => add(&mut text, line)?,
    }
    Ok(text)
}

fn add_piece(alloc: Global, text: &mut Vec<u8>, piece: &str) -> Result<(), Stop> {
    let Some((count, repeated)) = piece.split_once('*') else {
        return add(text, piece);
    };
    let Ok(count) = count.parse::<u32>() else {
        return add(text, piece);
    };
    for n in 0..count {
        add_numbered(alloc, text, repeated, n)?;
    }
    Ok(())
}

fn add_numbered(alloc: Global, text: &mut Vec<u8>, piece: &str, n: u32) -> Result<(), Stop> {
    for (at, part) in piece.split('#').enumerate() {
        if at > 0 {
            text.extend_from_slice(decimal(alloc, i64::from(n))?.bytes())?;
        }
        add(text, part)?;
    }
    Ok(())
}

fn add(text: &mut Vec<u8>, piece: &str) -> Result<(), Stop> {
    for (at, part) in piece.split('\\').enumerate() {
        match part.as_bytes() {
            bytes if at == 0 => text.extend_from_slice(bytes)?,
            [b'n', rest @ ..] => {
                text.push(b'\n')?;
                text.extend_from_slice(rest)?;
            }
            [high, low, rest @ ..] => {
                text.push(value(*high).wrapping_mul(16).wrapping_add(value(*low)))?;
                text.extend_from_slice(rest)?;
            }
            _ => return Err(Stop),
        }
    }
    Ok(())
}

/// The value of a hexadecimal digit in lower case.
fn value(digit: u8) -> u8 {
    match digit {
        b'0'..=b'9' => digit - b'0',
        b'a'..=b'f' => digit - b'a' + 10,
        _ => 0,
    }
}
